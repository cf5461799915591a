// The lines of a listing, laid in a lent list of bytes. What would lie past the list's end is counted and not stored.
// Stays without `Display` and `write!`, as crate digits says.
#![tactic(auto)]

ghost use Rattle.std.specs.Prelude.{◌++◌, ◌+◌, ◌^◌, ◌≤◌, ◌<◌, length};
ghost use Rattle.base.specs.Laid.{Laid};
ghost use Rattle.digits.specs.Decimal.{decimal};
ghost use Rattle.lines.specs.Lines.{refused_line, block_line, run_line, run_lines};

use digits::put_decimal;
use laying::put;
use model::PaletteRun;

// A text.
fn put_text(list: &mut [u8], at: usize, text: &[u8]) -> usize
    requires { (length text.now ≤ 16) × (at < 2 ^ 62) }
    ensures { Laid list.old at text.now result list.new }
{
    let mut to = at;
    for byte in text {
        to = put(list, to, *byte);
    }
    to
}

// A text and a number after it.
fn put_field(list: &mut [u8], at: usize, text: &[u8], n: u64) -> usize
    requires { (length text.now ≤ 16) × (at < 2 ^ 61) }
    ensures laid { Laid list.old at (text.now ++ decimal n) result list.new }
    ensures near { result ≤ at + length text.now + 20 }
{
    let to = put_text(list, at, text);
    put_decimal(list, to, n)
}

// The line of a refusal.
pub fn put_refused(list: &mut [u8], at: usize, no: u8, place: usize) -> usize
    requires { at < 2 ^ 60 }
    ensures laid { Laid list.old at (refused_line no place) result list.new }
    ensures near { result ≤ at + 53 }
{
    let p = put_field(list, at, b"refused ", u64::from(no));
    let q = put_field(list, p, b" at ", place as u64);
    put(list, q, b'\n')
}

// The first line of a block.
pub fn put_block(
    list: &mut [u8],
    at: usize,
    size: usize,
    palette: usize,
    escape: bool,
    transpose: bool,
    bins: usize,
) -> usize
    requires { at < 2 ^ 60 }
    ensures laid { Laid list.old at (block_line size palette escape transpose bins) result list.new }
    ensures near { result ≤ at + 141 }
{
    let p = put_field(list, at, b"block ", size as u64);
    let q = put_field(list, p, b" palette ", palette as u64);
    let r = put_field(list, q, b" escape ", u64::from(escape));
    let s = put_field(list, r, b" transpose ", u64::from(transpose));
    let t = put_field(list, s, b" bins ", bins as u64);
    put(list, t, b'\n')
}

// The line of a run.
fn put_run(list: &mut [u8], at: usize, run: PaletteRun) -> usize
    requires { at < 2 ^ 60 }
    ensures laid { Laid list.old at (run_line run) result list.new }
    ensures near { result ≤ at + 69 }
{
    let start = u64::from(run.start);
    let cells = u64::from(run.more) + 1;
    if run.above {
        let p = put_field(list, at, b"above ", start);
        let q = put_field(list, p, b" ", cells);
        return put(list, q, b'\n');
    }
    let p = put_field(list, at, b"index ", start);
    let q = put_field(list, p, b" ", cells);
    let r = put_field(list, q, b" ", u64::from(run.sent));
    put(list, r, b'\n')
}

// The lines of runs.
pub fn put_runs(list: &mut [u8], at: usize, runs: &[PaletteRun]) -> usize
    requires { (length runs.now ≤ 1024) × (at < 2 ^ 59) }
    ensures laid { Laid list.old at (run_lines runs.now) result list.new }
    ensures near { result ≤ at + 70656 }
{
    let mut to = at;
    for run in runs {
        to = put_run(list, to, *run);
    }
    to
}
