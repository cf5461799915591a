// The cheapest path's runs, from the planner's table straight onto a list of numbers, as crate flatplan lays them out.
#![tactic(auto)]

ghost use Rattle.std.specs.Prelude.{◌≡◌, false, [], ◌∷◌, ◌+◌, ◌*◌, ◌/◌, ◌≤◌, leb, length};
ghost use Rattle.std.specs.Float.Ieee.{lt};
ghost use Rattle.std.proofs.lemmas.List.Edits.{sets};
ghost use Rattle.base.specs.Pick.{pick};
ghost use Rattle.h265.specs.Strings.{bit};
ghost use Rattle.flatplan.specs.Flat.{flat_runs};
ghost use Rattle.paths.specs.Plan.{job, price_of, trail, planned};
ghost use Rattle.walk.specs.Points.{Falls, points_in, Rising, runs_in};
ghost use Rattle.planonto.specs.Onto.{OnList};

use cheapest::{Ends, chart};
use finish::chosen;
use model::PaletteRun;
use rates::RateModel;
use relax::Paths;
use walk::{lay, run_to};

// How many runs there are, and the total in bits.
#[derive(Clone, Copy)]
pub struct Onto {
    pub count: usize,
    pub total: f32,
}

// A run's four numbers from a place on.
// Stays beside flatplan's put_run, which tests for room at each number: here the room is known.
fn put_run(list: &mut [u32], at: usize, run: PaletteRun)
    requires { at + 4 ≤ length list.old }
    ensures { list.new ≡ sets list.old at (bit run.above ∷ run.sent ∷ run.more ∷ run.start ∷ []) }
{
    list[at] = u32::from(run.above);
    list[at + 1] = run.sent;
    list[at + 2] = run.more;
    list[at + 3] = run.start;
}

// The runs between the first `count` of the ends, on a list that has room for them.
// Stays lists with a count: the definition points_in takes the count beside them.
fn put_path(
    xs: &[u8; 1024],
    above: &[u8; 1024],
    ends: &[u16; 1024],
    kinds: &[bool; 1024],
    count: usize,
    list: &mut [u32],
)
    requires { (count ≤ 1024) × Rising 0 (points_in ends.now kinds.now 0 count) × (4 * count ≤ length list.old) }
    ensures { list.new ≡ sets list.old 0 (flat_runs (runs_in xs.now above.now 0 false (points_in ends.now kinds.now 0 count))) }
{
    let mut p: usize = 0;
    let mut k = false;
    for i in 0..count {
        let q = usize::from(ends[i]);
        let run = run_to(xs, above, p, k, q, kinds[i]);
        put_run(list, 4 * i, run);
        p = q;
        k = kinds[i];
    }
}

// The same where the list has room for them.
fn put_fitting(
    xs: &[u8; 1024],
    above: &[u8; 1024],
    ends: &[u16; 1024],
    kinds: &[bool; 1024],
    count: usize,
    list: &mut [u32],
)
    requires { (count ≤ 1024) × Rising 0 (points_in ends.now kinds.now 0 count) }
    ensures { list.new ≡ pick (leb count (length list.old / 4)) (sets list.old 0 (flat_runs (runs_in xs.now above.now 0 false (points_in ends.now kinds.now 0 count)))) list.old }
{
    if count <= list.len() / 4 {
        put_path(xs, above, ends, kinds, count, list);
    }
}

// The runs of the path that ends at n, with the cheaper of the two ends.
fn finish_onto(
    xs: &[u8; 1024],
    above: &[u8; 1024],
    paths: &Paths,
    n: usize,
    e: Ends,
    list: &mut [u32],
) -> Onto
    requires { (n ≤ 1024) × Falls paths.now.pos }
    ensures { OnList (record { total = pick (lt e.above e.index) e.above e.index; runs = runs_in xs.now above.now 0 false (trail paths.now.pos paths.now.st n n (lt e.above e.index)) })
        list.old result.count result.total list.new }
{
    let k = e.above < e.index;
    let total = chosen(k, e.index, e.above);
    let mut ends = [0; 1024];
    let mut kinds = [false; 1024];
    let count = lay(&paths.pos, &paths.st, n, k, &mut ends, &mut kinds);
    put_fitting(xs, above, &ends, &kinds, count, list);
    Onto { count, total }
}

// The cheapest path of a block's cells, onto a list that has room for it.
pub fn plan_onto(xs: &[u8; 1024], size: usize, most: u32, m: RateModel, list: &mut [u32]) -> Onto
    requires { (size ≤ 32) × (1 ≤ most) × (most ≤ 64) }
    ensures { OnList (planned (job size (size * size) most xs.now (price_of m most))) list.old result.count result.total list.new }
{
    let mut above = [0; 1024];
    let mut paths = Paths {
        cost: [0.0; 2050],
        pos: [0; 2050],
        st: [false; 2050],
    };
    let ends = chart(xs, &mut above, &mut paths, size, most, m);
    finish_onto(xs, &above, &paths, size * size, ends, list)
}
