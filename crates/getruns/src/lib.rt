// The reader of a block's runs: kinds and lengths from the bins, the indices sent from a list, the runs into an array.
#![tactic(auto)]

ghost use Rattle.std.specs.Prelude.{◌≡◌, false, ◌+◌, ◌-◌, ◌≤◌, ◌<◌, length, IfOk};
ghost use Rattle.get.specs.As.{answer_of};
ghost use Rattle.syntax.specs.Runs as R;
ghost use Rattle.getruns.specs.One.{sized_at, one_at};
ghost use Rattle.getruns.specs.As.{as_runs, RestBlank};

use get::BinReader;
use getrun::run_at;
use model::PaletteRun;
use refusal::{Refusal, Refused};
use runlist::no_runs;
use runstate::is_last;

// The first `count` runs of an array that is blank past them. Stays an array with a count: no heap.
#[derive(Clone, Copy)]
pub struct RunsRead {
    pub count: usize,
    pub runs: [PaletteRun; 1024],
}

// palette_run_type_flag, read or inferred.
#[tactic(auto, unfolding(syntax::specs::Runs::kind_at, syntax::specs::Runs::asked, syntax::specs::Runs::inferred))]
fn kind_at(
    reader: &mut BinReader<'_>,
    size: u32,
    n: u32,
    scan: u32,
    prev: bool,
    left: u32,
) -> Result<bool, Refused>
    requires { scan < n }
    ensures value { answer_of result reader.new.at ≡ R.kind_at size n scan prev left reader.old.list.now reader.old.at }
    ensures list { reader.new.list ≡ reader.old.list }
{
    if prev || scan < size {
        Ok(false)
    } else if left == 0 {
        Ok(true)
    } else if scan + 1 < n {
        reader.bin(1)
    } else {
        Ok(false)
    }
}

// The run's further cells.
#[tactic(auto, unfolding(syntax::specs::Runs::more_at))]
fn more_at(
    reader: &mut BinReader<'_>,
    n: u32,
    scan: u32,
    left: u32,
    fin: bool,
    above: bool,
    sent: u32,
) -> Result<u32, Refused>
    requires { (scan < n) × (n ≤ 1024) × (left ≤ 1024) }
    ensures value { answer_of result reader.new.at ≡ R.more_at n scan left fin above sent reader.old.list.now reader.old.at }
    ensures list { reader.new.list ≡ reader.old.list }
{
    if is_last(left, fin, above) {
        return Ok(n - (scan + 1));
    }
    let kept = scan + 1 + left + fin as u32;
    if n < kept {
        return Err(Refusal::Value.at(reader.at));
    }
    run_at(reader, n - kept, above, sent)
}

// A run of a known kind and index.
#[tactic(auto, unfolding(crate::specs::One::sized_at))]
fn sized_at(
    reader: &mut BinReader<'_>,
    n: u32,
    scan: u32,
    left: u32,
    fin: bool,
    above: bool,
    sent: u32,
) -> Result<PaletteRun, Refused>
    requires { (scan < n) × (n ≤ 1024) × (left ≤ 1024) }
    ensures value { answer_of result reader.new.at ≡ sized_at n scan left fin above sent reader.old.list.now reader.old.at }
    ensures list { reader.new.list ≡ reader.old.list }
{
    let more = more_at(reader, n, scan, left, fin, above, sent)?;
    Ok(PaletteRun {
        above,
        sent,
        more,
        start: scan,
    })
}

// One run: `left` indices are left, of which `next` is the first.
#[tactic(auto, unfolding(crate::specs::One::one_at))]
fn one_at(
    reader: &mut BinReader<'_>,
    size: u32,
    n: u32,
    fin: bool,
    scan: u32,
    prev: bool,
    left: u32,
    next: u32,
) -> Result<PaletteRun, Refused>
    requires { (scan < n) × (n ≤ 1024) × (left ≤ 1024) }
    ensures value { answer_of result reader.new.at ≡ one_at size n fin scan prev left next reader.old.list.now reader.old.at }
    ensures list { reader.new.list ≡ reader.old.list }
{
    if kind_at(reader, size, n, scan, prev, left)? {
        sized_at(reader, n, scan, left, fin, true, 0)
    } else if left == 0 {
        Err(Refusal::Value.at(reader.at))
    } else {
        sized_at(reader, n, scan, left - 1, fin, false, next)
    }
}

// All runs, whose indices are sent before them.
pub fn runs_at(
    reader: &mut BinReader<'_>,
    size: u32,
    n: u32,
    fin: bool,
    sent: &[u8],
) -> Result<RunsRead, Refused>
    requires { (n ≤ 1024) × (length sent.now ≤ 1024) }
    ensures value { as_runs result reader.new.at ≡ R.runs_at n size n fin 0 false sent.now reader.old.list.now reader.old.at }
    ensures list { reader.new.list ≡ reader.old.list }
    ensures rest { IfOk result (λ r. (r.count ≤ n) × RestBlank r.count r.runs) }
{
    let mut runs = no_runs();
    let mut count = 0;
    let mut scan = 0;
    let mut prev = false;
    let mut left = sent;
    // Stays a while: the step is the run's length.
    while scan < n {
        let next = left.first().copied().unwrap_or(0);
        let run = one_at(
            reader,
            size,
            n,
            fin,
            scan,
            prev,
            left.len() as u32,
            u32::from(next),
        )?;
        if !run.above {
            left = &left[1..];
        }
        runs[count] = run;
        count += 1;
        scan += run.more + 1;
        prev = run.above;
    }
    Ok(RunsRead { count, runs })
}
