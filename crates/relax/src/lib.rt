// The planner's table of paths, and offers to its slots: one offer, what a run's length adds, and the copy-above run's offer.
#![tactic(auto)]

ghost use Rattle.std.specs.Prelude.{◌≡◌, true, ℕ, ◌+◌, ◌*◌, ◌-◌, ◌≤◌, ◌<◌, Float, get_or};
ghost use Rattle.std.specs.Float.{binary32};
ghost use Rattle.std.specs.Float.Ieee.{add};
ghost use Rattle.paths.specs.Plan.{slot, relaxed, fresh};
ghost use Rattle.relax.specs.Jumps.{length_from, copy_from};
ghost use Rattle.relax.specs.Table.{table_of};

use lengths::run_from;
use sums::RunSums;

// For each slot the least cost of a path that ends there, and where its last run started, after a run of which kind.
// Stays three lists: the definition Table has them so, and the walk back reads only the last two.
#[derive(Clone, Copy)]
pub struct Paths {
    pub cost: [f32; 2050],
    pub pos: [u16; 2050],
    pub st: [bool; 2050],
}

impl Paths {
    // As before any run: the empty path ends at place 0, and no other slot is reached.
    pub fn clear(&mut self)
        ensures { table_of self.new ≡ fresh }
    {
        self.cost.fill(f32::INFINITY);
        self.cost[0] = 0.0;
        self.pos.fill(0);
        self.st.fill(false);
    }

    // The table before any run.
    pub fn fresh() -> Paths
        ensures { table_of result ≡ fresh }
    {
        let mut paths = Paths {
            cost: [0.0; 2050],
            pos: [0; 2050],
            st: [false; 2050],
        };
        paths.clear();
        paths
    }

    // A path of cost c whose last run started at p, after a run of kind k, ends at slot s: kept where it is cheaper.
    pub fn relax(&mut self, s: usize, c: f32, p: usize, k: bool)
        requires { (s < 2050) × (p < 1024) }
        ensures { table_of self.new ≡ relaxed (table_of self.old) s c p k }
    {
        if c < self.cost[s] {
            self.cost[s] = c;
            self.pos[s] = p as u16;
            self.st[s] = k;
        }
    }

    // The copy-above run of `len` cells from p.
    // Stays eight parameters: the caller has each as a number of its own, and a struct would be made for this call alone.
    pub fn copy(&mut self, sums: &RunSums, r1: f32, n: usize, p: usize, k: bool, c: f32, len: usize)
        requires { (1 ≤ len) × (p + len ≤ n) × (n ≤ 1024) }
        ensures { table_of self.new
            ≡ relaxed (table_of self.old) (slot (p + len) true) (add binary32 c (copy_from sums.now.short sums.now.full r1 n p (p + len))) p k }
    {
        let q = p + len;
        self.relax(q * 2 + 1, c + copy_bits(sums, r1, n, p, q), p, k);
    }
}

// What the length of a run from p up to q costs: none is sent for the last run.
pub fn length_bits(sums: &RunSums, row: usize, n: usize, p: usize, q: usize) -> f32
    requires { (row < 4) × (p < q) × (q ≤ n) × (n ≤ 1024) }
    ensures { result ≡ length_from sums.now.short sums.now.full row n p q }
{
    if q == n {
        return 0.0;
    }
    run_from(sums, row, (n - p - 1) as u32, (q - p - 1) as u32)
}

// What a copy-above run from p up to q costs: the last run's kind is not sent either.
fn copy_bits(sums: &RunSums, r1: f32, n: usize, p: usize, q: usize) -> f32
    requires { (p < q) × (q ≤ n) × (n ≤ 1024) }
    ensures { result ≡ copy_from sums.now.short sums.now.full r1 n p q }
{
    if q == n {
        return 0.0;
    }
    r1 + run_from(sums, 3, (n - p - 1) as u32, (q - p - 1) as u32)
}
