// Smoothing an index map: one run after another, over lent arrays along the scan.
#![tactic(auto)]

ghost use Rattle.std.specs.Prelude.{◌≡◌, ℕ, ◌+◌, ◌≤◌, length};
ghost use Rattle.smooth.specs.Seen.{seen};
ghost use Rattle.smooth.specs.Smooth as D;

use smooth::Scene;
use smoothcosts::run_length;
use smoothmoves::{copies, copy_above, fill, joins};

// One run: joined to the left, else copied from above, else left; whether it was moved.
fn smooth_run(s: &Scene, indices: &mut [u8; 1024], start: usize, len: usize) -> bool
    requires { (1 ≤ s.now.size) × (1 ≤ len) × (start + len ≤ 1024) × (length s.now.palette.now ≡ 64) }
    ensures { D.map indices.new result ≡ D.run_smoothed (seen s.now) indices.old start len }
{
    if indices[start] == s.escape {
        return false;
    }
    if joins(s, indices, start, len) {
        let left = indices[start - 1];
        fill(indices, left, start, len);
        return true;
    }
    if copies(s, indices, start, len) {
        copy_above(indices, s.size, start, len);
        return true;
    }
    false
}

// The index map smoothed; whether a run was moved.
pub fn smooth(s: &Scene, indices: &mut [u8; 1024]) -> bool
    requires { (1 ≤ s.now.size) × (s.now.size ≤ 32) × (length s.now.palette.now ≡ 64) }
    ensures { D.map indices.new result ≡ D.smoothed (seen s.now) indices.old }
{
    let n = s.size * s.size;
    let mut changed = false;
    let mut start = 0;
    // Stays a while: the step is the run's length.
    while start < n {
        let len = run_length(indices, n, start);
        changed |= smooth_run(s, indices, start, len);
        start += len;
    }
    changed
}
