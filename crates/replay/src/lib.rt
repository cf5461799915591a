// The cells that a reader makes of a run list.
#![tactic(auto)]

ghost use Rattle.std.specs.Prelude.{◌≡◌, false, [], ◌+◌, ◌-◌, ◌≤◌, ◌<◌, take};
ghost use Rattle.base.specs.Codes.{All};
ghost use Rattle.base.specs.Lists.{padded};
ghost use Rattle.syntax.specs.Replay as P;
ghost use Rattle.syntax.specs.Runs as R;
ghost use Rattle.replay.specs.Into.{copy_into, fill_into, index_in, lay_into, Short};

use model::PaletteRun;
use runstate::{above_of, end_of, reference_of};

// The cells of a copy-above run.
fn copy_cells(cells: &mut [u8; 1024], size: usize, from: usize, to: usize)
    requires { (1 ≤ size) × (from ≤ to) × (to ≤ 1024) }
    ensures { cells.new ≡ copy_into size (to - from) from cells.old }
{
    for i in from..to {
        cells[i] = above_of(cells, size, i);
    }
}

// The cells of an index run.
fn fill_cells(cells: &mut [u8; 1024], v: u8, from: usize, to: usize)
    requires { (from ≤ to) × (to ≤ 1024) }
    ensures { cells.new ≡ fill_into v (to - from) from cells.old }
{
    cells[from..to].fill(v);
}

// The index that is sent as `sent`: at and above its reference one more.
#[tactic(auto, unfolding(crate::specs::Into::index_in))]
fn index_of(cells: &[u8; 1024], size: usize, prev: bool, scan: usize, sent: u8) -> u8
    requires { (1 ≤ size) × (scan < 1024) × (sent < 255) }
    ensures { result ≡ index_in size prev cells.now scan sent }
{
    if scan == 0 || sent < reference_of(cells, size, prev, scan) {
        sent
    } else {
        sent + 1
    }
}

// The cells of one run.
#[tactic(auto, unfolding(crate::specs::Into::lay_into))]
fn lay_run(
    cells: &mut [u8; 1024],
    size: usize,
    prev: bool,
    scan: usize,
    to: usize,
    above: bool,
    sent: u8,
)
    requires { (1 ≤ size) × (scan < to) × (to ≤ 1024) × (sent < 255) }
    ensures { cells.new ≡ lay_into size prev scan (to - scan) above sent cells.old }
{
    if above {
        copy_cells(cells, size, scan, to);
    } else {
        let v = index_of(cells, size, prev, scan, sent);
        fill_cells(cells, v, scan, to);
    }
}

// The cells of a run list, and 0 past them.
pub fn replay_runs(size: usize, n: usize, runs: &[PaletteRun]) -> [u8; 1024]
    requires { (1 ≤ size) × (n ≤ 1024) × R.Keeps size n 0 false runs.now × All Short runs.now }
    ensures { result ≡ padded 1024 0 (P.replay size false [] runs.now) }
{
    let mut cells = [0u8; 1024];
    let mut scan = 0;
    let mut prev = false;
    for r in runs {
        let to = end_of(scan, r.more);
        lay_run(&mut cells, size, prev, scan, to, r.above, r.sent as u8);
        scan = to;
        prev = r.above;
    }
    cells
}
