// Smoothing an index map: the length of a run, and what recolouring it costs, over lent arrays along the scan.
#![tactic(auto)]

ghost use Rattle.std.specs.Prelude.{◌≡◌, ℕ, ◌+◌, ◌<◌, ◌≤◌, length, get_or};
ghost use Rattle.base.specs.Tests.{up_to};
ghost use Rattle.h265.specs.Scan as S;
ghost use Rattle.smooth.specs.Smooth as D;

use smooth::{Scene, above};

// The length of the run of equal indices that starts at start.
pub fn run_length(indices: &[u8; 1024], n: usize, start: usize) -> usize
    requires { (start < n) × (n ≤ 1024) }
    ensures { (result ≡ D.run_length n indices.now start) × (1 ≤ result) × (start + result ≤ n) }
{
    let v = indices[start];
    for end in start + 1..n {
        if indices[end] != v {
            return end - start;
        }
    }
    n - start
}

// Whether every sample of a run fits an entry.
pub fn run_fits(s: &Scene, entry: u64, start: usize, len: usize) -> bool
    requires { start + len ≤ 1024 }
    ensures { result ≡ up_to len (λ j. D.fits s.now.cells.now s.now.tolerance entry (start + j)) }
{
    let cells = s.cells;
    for cell in &cells[start..start + len] {
        if s.tolerance < quant::distance(entry, *cell) {
            return false;
        }
    }
    true
}

// What recolouring a run from one entry to another adds.
pub fn run_cost(s: &Scene, from: u64, to: u64, start: usize, len: usize) -> f32
    requires { (1 ≤ s.now.size) × (start + len ≤ 1024) }
    ensures { result ≡ D.sum_from (D.delta s.now.format s.now.size s.now.cells.now from to) start len }
{
    let mut sum = -0.0;
    for i in start..start + len {
        sum += s.delta(from, to, i);
    }
    sum
}

// Whether every index above a run fits.
pub fn run_above_fits(s: &Scene, indices: &[u8; 1024], value: u8, start: usize, len: usize) -> bool
    requires { (1 ≤ s.now.size) × (s.now.size ≤ start) × (start + len ≤ 1024) × (length s.now.palette.now ≡ 64) }
    ensures { result ≡ up_to len (λ j. D.above_fits s.now.size s.now.escape s.now.tolerance s.now.palette.now s.now.cells.now indices.now value (start + j)) }
{
    for i in start..start + len {
        if !s.above_fits(indices, value, i) {
            return false;
        }
    }
    true
}

// What copying a run from above adds.
pub fn run_above_cost(s: &Scene, indices: &[u8; 1024], from: u64, start: usize, len: usize) -> f32
    requires { (1 ≤ s.now.size) × (s.now.size ≤ start) × (start + len ≤ 1024) × (length s.now.palette.now ≡ 64) }
    ensures { result ≡ D.sum_from (λ i. D.delta s.now.format s.now.size s.now.cells.now from (get_or s.now.palette.now (S.above_at s.now.size indices.now i) 0) i) start len }
{
    let mut sum = -0.0;
    for i in start..start + len {
        let to = s.colour(above(indices, s.size, i));
        sum += s.delta(from, to, i);
    }
    sum
}
