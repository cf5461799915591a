// What writers and readers of bins share: powers and logarithms of two, and classes of a run's bins.
#![tactic(auto)]

ghost use Rattle.std.specs.Prelude.{◌≡◌, ℕ, ◌*◌, ◌^◌, ◌≤◌, ◌<◌};
ghost use Rattle.h265.specs.Strings as S;

// 2^k.
pub fn pow2(k: u32) -> u32
    requires { k ≤ 30 }
    ensures { result ≡ 2 ^ k }
{
    1 << k
}

// The whole part of the base 2 logarithm.
pub fn flog(n: u32) -> u32
    requires { n < 1073741824 }
    ensures { result ≡ S.flog n }
{
    n.checked_ilog2().unwrap_or(0)
}

// The values that a run's suffix may have, p = 2^(prefix - 1).
pub fn suffixes(longest: u32, p: u32) -> u32
    requires { (p ≤ longest) × (longest ≤ 1024) }
    ensures { ((k : ℕ) → p ≡ 2 ^ k → result ≡ S.suffixes longest k) × (result ≤ 1024) × (1 ≤ p → 1 ≤ result) }
{
    if longest < 2 * p { longest - p + 1 } else { p }
}

// The class of a run prefix's bin number i.
#[tactic(auto, unfolding(h265::specs::Strings::run_class))]
pub fn run_class(above: bool, sent: u32, i: u32) -> u8
    ensures class { result ≡ S.run_class above sent i }
    ensures small { result ≤ 10 }
{
    match (i, above, sent) {
        (0, true, _) => 8,
        (0, false, 0) => 3,
        (0, false, 1..=2) => 4,
        (0, false, _) => 5,
        (1..=2, true, _) => 9,
        (1..=2, false, _) => 6,
        (3..=4, true, _) => 10,
        (3..=4, false, _) => 7,
        _ => 0,
    }
}
