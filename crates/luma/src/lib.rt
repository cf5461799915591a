// The luma pre-check: whether a block's luma values alone are too many.
#![tactic(auto)]

ghost use Rattle.std.specs.Prelude.{◌≡◌, ◌<◌, ◌≤◌, ltb, length};
ghost use Rattle.census.specs.Census.{met_by};
ghost use Rattle.luma.specs.Luma.{coarse, Marked};

// The luma value of a packed colour, cut to 8 bits.
#[tactic(auto, unfolding(crate::specs::Luma::coarse))]
fn coarse_of(key: u64, shift: u64) -> usize
    requires { shift ≤ 8 }
    ensures { (result ≡ coarse shift key) × (result < 256) }
{
    (key % 65536 >> shift).min(255) as usize
}

// One value more: the number of values met after it.
fn mark(seen: &mut [bool; 256], v: usize, met: usize) -> usize
    requires { (v < 256) × (met < 1024) }
    ensures { Marked seen.old seen.new v met result }
{
    if seen[v] {
        return met;
    }
    seen[v] = true;
    met + 1
}

// Whether the samples have more luma values of 8 bits than the limit.
pub fn luma_exceeds(samples: &[u64], shift: u64, limit: usize) -> bool
    requires { (length samples.now ≤ 1024) × (shift ≤ 8) }
    ensures { result ≡ ltb limit (length (met_by (coarse shift) samples.now (length samples.now))) }
{
    let mut seen = [false; 256];
    let mut met = 0;
    for key in samples {
        met = mark(&mut seen, coarse_of(*key, shift), met);
        if limit < met {
            return true;
        }
    }
    false
}
