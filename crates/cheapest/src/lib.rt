// The cheapest path of a block's cells: the tables of the cells and of the sums, the sweep over them, and the runs of the path at its end.
#![tactic(auto)]

ghost use Rattle.std.specs.Prelude.{◌≡◌, ◌*◌, ◌≤◌, length};
ghost use Rattle.finish.specs.Found.{found_of};
ghost use Rattle.paths.specs.Plan.{job, price_of, planned};
ghost use Rattle.rates.specs.Rates.{share_rate};
ghost use Rattle.starts.specs.Starts.{terms_of, job_in};
ghost use Rattle.cheapest.specs.Chart.{Charted};

use finish::{Found, finish};
use measure::{Lengths, fill_above, fill_lengths};
use rates::{RateModel, share_bits};
use relax::Paths;
use starts::{Task, Terms};
use sums::run_sums;
use sweep::sweep;

// What the planner is told of a block and its rates.
fn terms_of(size: usize, n: usize, most: u32, m: RateModel) -> Terms
    requires { most ≤ 64 }
    ensures { result ≡ terms_of size n most m.run_type.bin0 m.run_type.bin1 (share_rate most) }
{
    Terms {
        size,
        n,
        most,
        r0: m.run_type.bin0,
        r1: m.run_type.bin1,
        share: share_bits(most),
    }
}

// What the paths cost that end with an index run and with a copy-above run.
#[derive(Clone, Copy)]
pub struct Ends {
    pub index: f32,
    pub above: f32,
}

// The table of the paths, by the tables of the cells and of the sums.
fn search(paths: &mut Paths, task: &Task) -> Ends
    ensures { Charted (job_in task.now.terms task.now.xs.now task.now.sums.now.short task.now.sums.now.full) task.now.above.now paths.new.pos paths.new.st result.index result.above }
{
    paths.clear();
    sweep(paths, task);
    let t = task.terms;
    Ends {
        index: paths.cost[t.n * 2] + t.r0,
        above: paths.cost[t.n * 2 + 1] + t.r1,
    }
}

// The cells above, and the table of the paths through a block's cells, whatever stood in either.
// Stays arrays: size is the side of the block in them, and no count.
pub fn chart(
    xs: &[u8; 1024],
    above: &mut [u8; 1024],
    paths: &mut Paths,
    size: usize,
    most: u32,
    m: RateModel,
) -> Ends
    requires { (size ≤ 32) × (1 ≤ most) × (most ≤ 64) × (length above.old ≡ 1024) }
    ensures { Charted (job size (size * size) most xs.now (price_of m most)) above.new paths.new.pos paths.new.st result.index result.above }
{
    let n = size * size;
    fill_above(xs, above, size);
    let mut lengths = Lengths {
        index: [0; 1026],
        above: [0; 1026],
        next: [0; 1026],
    };
    fill_lengths(xs, above, &mut lengths, size, n);
    let task = Task {
        terms: terms_of(size, n, most, m),
        xs,
        above,
        lengths: &lengths,
        sums: &run_sums(m),
    };
    search(paths, &task)
}

// The cheapest path of a block's cells.
pub fn plan_cells(xs: &[u8; 1024], size: usize, most: u32, m: RateModel) -> Found
    requires { (size ≤ 32) × (1 ≤ most) × (most ≤ 64) }
    ensures { result ≡ found_of (planned (job size (size * size) most xs.now (price_of m most))) }
{
    let mut above = [0; 1024];
    let mut paths = Paths {
        cost: [0.0; 2050],
        pos: [0; 2050],
        st: [false; 2050],
    };
    let ends = chart(xs, &mut above, &mut paths, size, most, m);
    finish(
        xs,
        &above,
        &paths.pos,
        &paths.st,
        size * size,
        ends.index,
        ends.above,
    )
}
