// An index run's reference, whether it may start, and what it sends.
#![tactic(auto)]

ghost use Rattle.std.specs.Prelude.{◌≡◌, ℕ, ◌≤◌, ◌<◌};
ghost use Rattle.paths.specs.Cells.{draws_from, sent_from};
ghost use Rattle.cells.specs.Steps.{reference_in};

// The reference of an index run at p after a run of kind k.
pub fn reference_in(xs: &[u8; 1024], above: &[u8; 1024], p: usize, k: bool) -> u8
    requires { p < 1024 }
    ensures { result ≡ reference_in xs.now above.now p k }
{
    if p == 0 {
        0
    } else if k {
        above[p]
    } else {
        xs[p - 1]
    }
}

// Whether an index run may start at p.
pub fn draws_from(p: usize, v: u8, reference: u8) -> bool
    ensures { result ≡ draws_from p v reference }
{
    p == 0 || v != reference
}

// The index that an index run at p sends.
pub fn sent_from(p: usize, v: u8, reference: u8) -> u32
    ensures { result ≡ sent_from p v reference }
{
    if p == 0 {
        u32::from(v)
    } else if reference < v {
        u32::from(v - 1)
    } else {
        u32::from(v)
    }
}
