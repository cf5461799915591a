// Reader of the reuse runs: which predictor entries the palette takes.
#![tactic(auto)]

ghost use Rattle.std.specs.Prelude.{◌≡◌, ◌≤◌};
ghost use Rattle.h265.specs.Reuse.{reuse_at};
ghost use Rattle.getreuse.specs.Read.{as_read, read_of};

use get::BinReader;
use getgolomb::egk_at;
use refusal::{Refusal, Refused};

// Which of a predictor's entries are reused, and how many are.
#[derive(Clone, Copy)]
pub struct Reuse {
    pub flags: [bool; 128],
    pub reused: u32,
}

// The reuse runs of a predictor of `count` entries, of which at most `limit` are reused.
pub fn reuse_at(reader: &mut BinReader<'_>, limit: u32, count: u32) -> Result<Reuse, Refused>
    requires { count ≤ 128 }
    ensures value { as_read result reader.new.at ≡ read_of (reuse_at limit count reader.old.list.now reader.old.at) }
    ensures list { reader.new.list ≡ reader.old.list }
{
    let mut flags = [false; 128];
    let mut reused = 0;
    let mut next = 0;
    // Stays a while: the step is the run's length.
    while next < count && reused < limit {
        let first = reader.at;
        let run = egk_at(reader, 0)?;
        if run == 1 {
            break;
        }
        let gap = run.saturating_sub(1);
        if count - next <= gap {
            return Err(Refusal::Value.at(first));
        }
        next += gap;
        flags[next as usize] = true;
        next += 1;
        reused += 1;
    }
    Ok(Reuse { flags, reused })
}
