// The end of planning: the cheaper of the two ends, and the runs of the path to it.
#![tactic(auto)]

ghost use Rattle.std.specs.Prelude.{◌≡◌, Bool, true, false, ℕ, ◌≤◌, ◌<◌};
ghost use Rattle.std.specs.Float.Ieee.{lt};
ghost use Rattle.base.specs.Pick.{pick};
ghost use Rattle.paths.specs.Plan.{trail};
ghost use Rattle.walk.specs.Points.{Falls, runs_in};
ghost use Rattle.finish.specs.Found.{found};

use model::PaletteRun;
use walk::{lay, runs_of};

// A count of runs, the total in bits, and the runs.
// Stays an array with its count: no heap.
#[derive(Clone, Copy)]
pub struct Found {
    pub count: usize,
    pub total: f32,
    pub runs: [PaletteRun; 1024],
}

// The cost of the end that is chosen.
pub fn chosen(k: bool, e0: f32, e1: f32) -> f32
    ensures { result ≡ pick k e1 e0 }
{
    if k { e1 } else { e0 }
}

// The runs of the path that ends at n, with the cheaper of the two ends.
pub fn finish(
    xs: &[u8; 1024],
    above: &[u8; 1024],
    pos: &[u16; 2050],
    st: &[bool; 2050],
    n: usize,
    e0: f32,
    e1: f32,
) -> Found
    requires { (n ≤ 1024) × Falls pos.now }
    ensures { result ≡ found (pick (lt e1 e0) e1 e0) (runs_in xs.now above.now 0 false (trail pos.now st.now n n (lt e1 e0))) }
{
    let k = e1 < e0;
    let total = chosen(k, e0, e1);
    let mut ends = [0u16; 1024];
    let mut kinds = [false; 1024];
    let count = lay(pos, st, n, k, &mut ends, &mut kinds);
    let runs = runs_of(xs, above, &ends, &kinds, count);
    Found { count, total, runs }
}
