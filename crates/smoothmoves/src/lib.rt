// Smoothing an index map: whether a run may be moved, and the moves, over lent arrays along the scan.
#![tactic(auto)]

ghost use Rattle.std.specs.Prelude.{◌≡◌, ℕ, ◌+◌, ◌≤◌, length};
ghost use Rattle.base.specs.Cells.{laid};
ghost use Rattle.smooth.specs.Seen.{seen};
ghost use Rattle.smooth.specs.Smooth as D;

use smooth::{Scene, above};
use smoothcosts::{run_above_cost, run_above_fits, run_cost, run_fits};

// A run takes one index.
pub fn fill(indices: &mut [u8; 1024], v: u8, start: usize, len: usize)
    requires { start + len ≤ 1024 }
    ensures { indices.new ≡ laid (λ i. v) indices.old start len }
{
    indices[start..start + len].fill(v);
}

// A run takes the indices above, one after another.
pub fn copy_above(indices: &mut [u8; 1024], size: usize, start: usize, len: usize)
    requires { (1 ≤ size) × (size ≤ start) × (start + len ≤ 1024) }
    ensures { indices.new ≡ D.copied_from size indices.old start len }
{
    for i in start..start + len {
        let a = above(indices, size, i);
        indices[i] = a;
    }
}

// Whether a run may join the one on its left.
pub fn joins(s: &Scene, indices: &[u8; 1024], start: usize, len: usize) -> bool
    requires { (1 ≤ s.now.size) × (1 ≤ len) × (start + len ≤ 1024) × (length s.now.palette.now ≡ 64) }
    ensures { result ≡ D.joins (seen s.now) indices.now start len }
{
    if start == 0 {
        return false;
    }
    let left = indices[start - 1];
    if left == s.escape {
        return false;
    }
    let to = s.colour(left);
    let from = s.colour(indices[start]);
    run_fits(s, to, start, len) && run_cost(s, from, to, start, len) < s.budget
}

// Whether a run may be copied from above.
pub fn copies(s: &Scene, indices: &[u8; 1024], start: usize, len: usize) -> bool
    requires { (1 ≤ s.now.size) × (1 ≤ len) × (start + len ≤ 1024) × (length s.now.palette.now ≡ 64) }
    ensures { result ≡ D.copies (seen s.now) indices.now start len }
{
    if start < s.size {
        return false;
    }
    let value = indices[start];
    let from = s.colour(value);
    run_above_fits(s, indices, value, start, len)
        && run_above_cost(s, indices, from, start, len) < s.budget
}
