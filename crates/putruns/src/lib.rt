// The writer of a block's runs, kinds and lengths, onto a lent bin list.
#![tactic(auto)]

ghost use Rattle.std.specs.Prelude.{◌≡◌, false, ◌+◌, ◌*◌, ◌^◌, ◌≤◌, ◌<◌, length};
ghost use Rattle.base.specs.Laid.{Laid};
ghost use Rattle.base.specs.Pick.{pick};
ghost use Rattle.flatplan.specs.Flat.{first_of};
ghost use Rattle.h265.specs.Strings.{bit};
ghost use Rattle.syntax.specs.Runs as R;
ghost use Rattle.syntax.specs.RunsLaws.{MoreOk};
ghost use Rattle.putruns.specs.Going.{Going};

use flatplan::run_in;
use model::PaletteRun;
use put::put_bin;
use putrun::put_run;
use runstate::is_last;

// Whether palette_run_type_flag is sent.
#[tactic(auto, unfolding(syntax::specs::Runs::asked))]
fn asked(size: u32, n: u32, scan: u32, prev: bool, left: u32) -> bool
    requires { scan ≤ 1024 }
    ensures { result ≡ R.asked size n scan prev left }
{
    !prev && size <= scan && 0 < left && scan + 1 < n
}

// The byte of a run's kind.
pub fn kind_byte(above: bool) -> u8
    ensures { result ≡ 1 * 2 + bit above }
{
    2 + u8::from(above)
}

// Where the runs are: the next cell along the scan, the kind of the run before it, and the index runs left.
#[derive(Clone, Copy)]
struct Place {
    scan: u32,
    prev: bool,
    left: u32,
}

// palette_run_type_flag, where it is sent.
#[tactic(auto, unfolding(syntax::specs::Runs::kind_bins), using(base::specs::Laid::laid_none))]
fn put_kind(list: &mut [u8], at: usize, size: u32, n: u32, place: Place, above: bool) -> usize
    requires { (place.scan ≤ 1024) × (at + 32 < 2 ^ 63) }
    ensures laid { Laid list.old at (R.kind_bins size n place.scan place.prev place.left above) result list.new }
    ensures near { result ≤ at + 1 }
{
    if asked(size, n, place.scan, place.prev, place.left) {
        return put_bin(list, at, kind_byte(above));
    }
    at
}

// The length of a run, where it is sent; the longest run is the writer's.
#[tactic(auto, unfolding(syntax::specs::Runs::more_bins), using(base::specs::Laid::laid_none))]
fn put_more(list: &mut [u8], at: usize, n: u32, place: Place, fin: bool, run: PaletteRun) -> usize
    requires { (place.scan < n) × (n ≤ 1024) × (place.left ≤ 1024) × (at + 64 < 2 ^ 63) × MoreOk n place.scan place.left fin run.above run.more }
    ensures laid { Laid list.old at (R.more_bins n place.scan place.left fin run.above run.sent run.more) result list.new }
    ensures near { result ≤ at + 64 }
{
    if is_last(place.left, fin, run.above) {
        return at;
    }
    let kept = place.scan + 1 + place.left + u32::from(fin);
    put_run(list, at, n - kept, run.above, run.sent, run.more)
}

// The index runs left after a run.
fn left_after(left: u32, above: bool) -> u32
    requires { pick above 0 1 ≤ left }
    ensures { result + pick above 0 1 ≡ left }
{
    left - u32::from(!above)
}

// All runs: the first `count` of the records, of which `total` are index runs and the last is of kind `fin`.
pub fn put_runs(
    list: &mut [u8],
    at: usize,
    size: u32,
    n: u32,
    fin: bool,
    runs: &[u32],
    count: usize,
    total: u32,
) -> usize
    requires { (at < 2 ^ 62) × (n ≤ 1024) × (count ≤ 1024) × (4 * count ≤ length runs.now) × Going size n fin 0 false total (first_of runs.now count) }
    ensures laid { Laid list.old at (R.runs_bins size n fin 0 false (first_of runs.now count)) result list.new }
    ensures near { result ≤ at + 65 * count }
{
    let mut to = at;
    let mut place = Place {
        scan: 0,
        prev: false,
        left: total,
    };
    for i in 0..count {
        let run = run_in(runs, 4 * i);
        to = put_kind(list, to, size, n, place, run.above);
        place.left = left_after(place.left, run.above);
        to = put_more(list, to, n, place, fin, run);
        place.scan = place.scan + run.more + 1;
        place.prev = run.above;
    }
    to
}
