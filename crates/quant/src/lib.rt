// Step of a QP, tolerance, distance of two colours, escape levels and their values.
#![tactic(auto)]

ghost use Rattle.std.specs.Prelude.{◌≡◌, false, ◌-◌, ◌≤◌, ◌<◌, min, max, pos, ◌≤ℤ◌};
ghost use Rattle.h265.specs.Escape.{from_zero, scale_of, step_at, escape_value};
ghost use Rattle.quant.specs.Quant.{tolerance_of, gap, nearer, start_of, level_of, dist};

// The scale of a remainder by 6.
#[tactic(auto, unfolding(h265::specs::Escape::scale_of))]
fn scale(r: u64) -> u64
    requires { r < 6 }
    ensures { result ≡ scale_of r }
{
    match r {
        0 => 40,
        1 => 45,
        2 => 51,
        3 => 57,
        4 => 64,
        _ => 72,
    }
}

// The step of a QP.
pub fn step(qp: i32) -> u64
    requires { qp ≤ℤ pos 75 }
    ensures { (result ≡ step_at qp) × (40 ≤ result) × (result ≤ 294912) }
{
    let q = qp.max(0) as u64;
    scale(q % 6) << (q / 6)
}

// The tolerance at a step.
#[tactic(auto, unfolding(crate::specs::Quant::tolerance_of))]
pub fn tolerance(lossless: bool, step: u64) -> u64
    ensures { result ≡ tolerance_of lossless step }
{
    if lossless {
        0
    } else if 1984 <= step {
        16
    } else {
        (step + 64) / 128
    }
}

// The largest difference of a component of two packed colours.
#[tactic(auto, unfolding(crate::specs::Quant::dist))]
pub fn distance(a: u64, b: u64) -> u64
    ensures { result ≡ dist a b }
{
    let y = (a % 65536).abs_diff(b % 65536);
    let u = (a / 65536 % 65536).abs_diff(b / 65536 % 65536);
    let v = (a / 4294967296 % 65536).abs_diff(b / 4294967296 % 65536);
    y.max(u.max(v))
}

// The value of a level from 0 on.
fn decode(step: u64, most: u64, level: u64) -> u64
    requires { (step ≤ 294912) × (level ≤ 2147483647) }
    ensures { result ≡ escape_value false step most (pos level) }
{
    ((level * step + 32) / 64).min(most)
}

// The value of any level.
pub fn dequant_escape(lossless: bool, step: u64, most: u64, level: i32) -> u64
    requires { step ≤ 294912 }
    ensures { result ≡ escape_value lossless step most level }
{
    let n = level.max(0) as u64;
    if lossless {
        n.min(most)
    } else {
        decode(step, most, n)
    }
}

// Of two levels the one with the lesser error, the first on ties.
#[tactic(auto, unfolding(crate::specs::Quant::nearer))]
fn the_nearer(step: u64, most: u64, v: u64, a: u64, b: u64) -> u64
    requires { (step ≤ 294912) × (a ≤ 2147483647) × (b ≤ 2147483647) }
    ensures { (result ≡ nearer step most v a b) × (result ≤ 2147483647) }
{
    if decode(step, most, b).abs_diff(v) < decode(step, most, a).abs_diff(v) {
        b
    } else {
        a
    }
}

// Where the search for a level starts.
fn start(step: u64, v: u64) -> u64
    requires { (1 ≤ step) × (step ≤ 294912) × (v ≤ 65535) }
    ensures { (result ≡ start_of step v) × (result ≤ 2147483646) }
{
    (128 * v + step) / (2 * step)
}

// The level of a value.
#[tactic(auto, unfolding(crate::specs::Quant::level_of, crate::specs::Quant::quantised))]
pub fn quantize_escape(lossless: bool, step: u64, most: u64, v: u64) -> u64
    requires { (1 ≤ step) × (step ≤ 294912) × (v ≤ 65535) }
    ensures { result ≡ level_of lossless step most v }
{
    if lossless {
        return v.min(most);
    }
    let s = start(step, v);
    let low = the_nearer(step, most, v, s.saturating_sub(1), s);
    the_nearer(step, most, v, low, s + 1)
}
