// The rate model, by value: the test of its rates, and what a bin, an index and an index run's share of the count cost.
#![tactic(auto)]

ghost use Rattle.std.specs.Prelude.{◌≡◌, ◌≤◌};
ghost use Rattle.base.specs.Upto as U;
ghost use Rattle.rates.specs.Rates.{rate_in, pair_in, rates_in, class_rates, rate_of, index_rate, share_rate};

use bins::{flog, pow2};

// The rates of a bin that is 0 and of one that is 1.
#[derive(Clone, Copy)]
pub struct Pair {
    pub bin0: f32,
    pub bin1: f32,
}

// Two run-type rates and eight pairs of run-prefix rates, in bits.
#[derive(Clone, Copy)]
pub struct RateModel {
    pub run_type: Pair,
    pub run_prefix: [Pair; 8],
}

// Whether a rate is a number from 0 to 64.
fn rate_in(r: f32) -> bool
    ensures { result ≡ rate_in r }
{
    (0.0 <= r) & (r <= 64.0)
}

// Whether both rates of a pair are.
fn pair_in(p: Pair) -> bool
    ensures { result ≡ pair_in p }
{
    rate_in(p.bin0) & rate_in(p.bin1)
}

// The test for refusal 6.
pub fn rates_in(m: RateModel) -> bool
    ensures { result ≡ rates_in m }
{
    let mut ok = pair_in(m.run_type);
    for p in &m.run_prefix {
        ok = ok & pair_in(*p);
    }
    ok
}

// n as a float.
// Stays a function: it states that the float is exact.
pub fn number(n: u32) -> f32
    requires { n ≤ 16777216 }
    ensures { result ≡ U.number n }
{
    n as f32
}

// The rates of a class's bins.
// Stays a number: a class past 10 is answered too.
fn class_rates(m: RateModel, class: u8) -> Pair
    ensures { result ≡ class_rates m class }
{
    match class {
        1 => m.run_type,
        3..=10 => m.run_prefix[usize::from(class - 3)],
        _ => Pair {
            bin0: 1.0,
            bin1: 1.0,
        },
    }
}

// What a bin costs, by its byte.
pub fn bin_rate(m: RateModel, byte: u8) -> f32
    ensures { result ≡ rate_of m byte }
{
    let p = class_rates(m, byte / 2);
    if byte % 2 == 0 { p.bin0 } else { p.bin1 }
}

// The rate of an index sent.
pub fn index_bits(sent: u32, alphabet: u32) -> f32
    requires { (1 ≤ alphabet) × (alphabet ≤ 1024) }
    ensures { result ≡ index_rate alphabet sent }
{
    let k = flog(alphabet);
    if sent < pow2(k + 1) - alphabet {
        number(k)
    } else {
        number(k + 1)
    }
}

// An index run's share of the index count.
pub fn share_bits(most: u32) -> f32
    requires { most ≤ 128 }
    ensures { result ≡ share_rate most }
{
    1.0 / number(pow2(3 + (most + 1) / 8))
}
