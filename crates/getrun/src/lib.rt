// Reader of a run's length: palette_run_prefix and palette_run_suffix.
#![tactic(auto)]

ghost use Rattle.std.specs.Prelude.{◌≡◌, ◌+◌, ◌≤◌};
ghost use Rattle.h265.specs.Parse.{suffix_at, run_at};
ghost use Rattle.h265.specs.Strings as S;
ghost use Rattle.get.specs.As.{answer_of};

use bins::{flog, pow2, run_class, suffixes};
use get::BinReader;
use getbits::tb_at;
use getones::ones_of;
use refusal::Refused;

// What a run's suffix adds to after prefix k.
fn suffix_at(reader: &mut BinReader<'_>, longest: u32, k: u32) -> Result<u32, Refused>
    requires { (1 ≤ longest) × (longest ≤ 1024) × (k ≤ S.flog longest + 1) }
    ensures value { answer_of result reader.new.at ≡ suffix_at longest k reader.old.list.now reader.old.at }
    ensures list { reader.new.list ≡ reader.old.list }
{
    if k == 0 {
        return Ok(0);
    }
    let p = pow2(k - 1);
    let n = suffixes(longest, p);
    Ok(p + tb_at(reader, n)?)
}

// A run's further cells, of at most `longest`.
#[tactic(auto, unfolding(h265::specs::Parse::run_at))]
pub fn run_at(
    reader: &mut BinReader<'_>,
    longest: u32,
    above: bool,
    sent: u32,
) -> Result<u32, Refused>
    requires { longest ≤ 1024 }
    ensures value { answer_of result reader.new.at ≡ run_at longest above sent reader.old.list.now reader.old.at }
    ensures list { reader.new.list ≡ reader.old.list }
{
    if longest == 0 {
        return Ok(0);
    }
    let most = flog(longest) + 1;
    let prefix = ones_of(reader, most, |ones| run_class(above, sent, ones))?;
    suffix_at(reader, longest, prefix)
}
