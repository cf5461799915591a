// The reader of the index map: the indices sent into an array, the flags, then the runs.
#![tactic(auto)]

ghost use Rattle.std.specs.Prelude.{◌≡◌, false, ◌+◌, ◌-◌, ◌≤◌, ◌<◌, length, IfOk};
ghost use Rattle.base.specs.Codes.{each_at, when_at};
ghost use Rattle.get.specs.As.{answer_of};
ghost use Rattle.h265.specs.Parse.{tb_at, marker_at};
ghost use Rattle.syntax.specs.Block as B;
ghost use Rattle.getruns.specs.As.{RestBlank};
ghost use Rattle.getmap.specs.As.{as_indices, as_map};

use get::BinReader;
use getbits::tb_at;
use getcount::count_at;
use getruns::{RunsRead, runs_at};
use model::PaletteRun;
use refusal::{Refusal, Refused};
use runlist::no_runs;
use runstate::alphabet;

// The first `count` indices sent. Stays an array with a count: no heap.
#[derive(Clone, Copy)]
struct IndicesRead {
    count: u32,
    sent: [u8; 1024],
}

// The transpose flag, and the first `count` runs of an array that is blank past them. Stays an array with a count: no heap.
#[derive(Clone, Copy)]
pub struct MapRead {
    pub turned: bool,
    pub count: usize,
    pub runs: [PaletteRun; 1024],
}

// `total` indices.
fn each_index(reader: &mut BinReader<'_>, m: u32, total: u32) -> Result<IndicesRead, Refused>
    requires { (1 ≤ m) × (m ≤ 64) × (1 ≤ total) × (total ≤ 1024) }
    ensures value { as_indices result reader.new.at ≡ each_at tb_at (B.alphabets m (total - 1)) reader.old.list.now reader.old.at }
    ensures list { reader.new.list ≡ reader.old.list }
    ensures most { IfOk result (λ r. r.count ≤ 1024) }
{
    let mut sent = [0; 1024];
    for k in 0..total {
        sent[k as usize] = tb_at(reader, alphabet(m, k))? as u8;
    }
    Ok(IndicesRead { count: total, sent })
}

// The index count and the indices.
#[tactic(auto, unfolding(syntax::specs::Block::indices_at, h265::specs::Parse::held))]
fn indices_at(reader: &mut BinReader<'_>, n: u32, m: u32) -> Result<IndicesRead, Refused>
    requires { (1 ≤ m) × (m ≤ 64) × (1 ≤ n) × (n ≤ 1024) }
    ensures value { as_indices result reader.new.at ≡ B.indices_at n m reader.old.list.now reader.old.at }
    ensures list { reader.new.list ≡ reader.old.list }
    ensures most { IfOk result (λ r. r.count ≤ 1024) }
{
    let first = reader.at;
    let more = count_at(reader, m)?;
    if n - 1 < more {
        return Err(Refusal::Value.at(first));
    }
    each_index(reader, m, more + 1)
}

// The QP marker, where there are escapes.
fn marked_at(reader: &mut BinReader<'_>, due: bool) -> Result<(), Refused>
    ensures value { answer_of result reader.new.at ≡ when_at due tt marker_at reader.old.list.now reader.old.at }
    ensures list { reader.new.list ≡ reader.old.list }
{
    if due { reader.marker() } else { Ok(()) }
}

// The map of a block whose greatest index is m, above 0.
#[tactic(auto, unfolding(syntax::specs::Block::coded_at))]
fn coded_at(
    reader: &mut BinReader<'_>,
    size: u32,
    n: u32,
    m: u32,
    escape: bool,
) -> Result<MapRead, Refused>
    requires { (1 ≤ m) × (m ≤ 64) × (1 ≤ n) × (n ≤ 1024) }
    ensures value { as_map result reader.new.at ≡ B.coded_at size n m escape reader.old.list.now reader.old.at }
    ensures list { reader.new.list ≡ reader.old.list }
    ensures rest { IfOk result (λ r. (r.count ≤ 1024) × RestBlank r.count r.runs) }
{
    let indices = indices_at(reader, n, m)?;
    let fin = reader.bin(1)?;
    let turned = reader.bin(2)?;
    marked_at(reader, escape)?;
    let sent = &indices.sent[..indices.count as usize];
    let RunsRead { count, runs } = runs_at(reader, size, n, fin, sent)?;
    Ok(MapRead {
        turned,
        count,
        runs,
    })
}

// The map of any block.
#[tactic(auto, unfolding(syntax::specs::Block::map_at))]
pub fn map_at(
    reader: &mut BinReader<'_>,
    size: u32,
    n: u32,
    m: u32,
    escape: bool,
) -> Result<MapRead, Refused>
    requires { (m ≤ 64) × (1 ≤ n) × (n ≤ 1024) }
    ensures value { as_map result reader.new.at ≡ B.map_at size n m escape reader.old.list.now reader.old.at }
    ensures list { reader.new.list ≡ reader.old.list }
    ensures rest { IfOk result (λ r. (r.count ≤ 1024) × RestBlank r.count r.runs) }
{
    if m == 0 {
        marked_at(reader, escape)?;
        return Ok(MapRead {
            turned: false,
            count: 0,
            runs: no_runs(),
        });
    }
    coded_at(reader, size, n, m, escape)
}
