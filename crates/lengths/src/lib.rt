// What a run's length costs: the prefix from the tables of sums, and the suffix on top of it.
#![tactic(auto)]

ghost use Rattle.std.specs.Prelude.{◌≡◌, ◌≤◌, ◌<◌};
ghost use Rattle.h265.specs.Strings.{prefix_of};
ghost use Rattle.rates.specs.Rates.{run_rate};
ghost use Rattle.sums.specs.Sums.{tb_sum, suffix_sum, run_from};

use bins::{flog, pow2, suffixes};
use rates::{RateModel, number};
use sums::{RunSums, row_of, run_sums};

// A sum with v of n values in truncated binary.
fn tb_sum(sum: f32, n: u32, v: u32) -> f32
    requires { n ≤ 1024 }
    ensures { result ≡ tb_sum sum n v }
{
    if n < 2 {
        return sum;
    }
    let k = flog(n);
    let bits = number(k);
    if v < pow2(k + 1) - n {
        sum + bits
    } else {
        sum + bits + 1.0
    }
}

// A sum with the suffix of a run of `more` further cells.
// Stays two numbers, here and below: the definitions take them one by one.
fn suffix_sum(sum: f32, longest: u32, more: u32) -> f32
    requires { (more ≤ longest) × (longest ≤ 1024) }
    ensures { result ≡ suffix_sum sum longest more }
{
    if more == 0 {
        return sum;
    }
    let p = pow2(flog(more));
    tb_sum(sum, suffixes(longest, p), more - p)
}

// The prefix of a run of `more` further cells.
fn prefix_of(more: u32) -> u32
    requires { more ≤ 1024 }
    ensures { (result ≡ prefix_of more) × (result < 12) }
{
    if more == 0 { 0 } else { flog(more) + 1 }
}

// The rate of a run's length, from the tables.
pub fn run_from(sums: &RunSums, row: usize, longest: u32, more: u32) -> f32
    requires { (row < 4) × (more ≤ longest) × (longest ≤ 1024) }
    ensures { result ≡ run_from sums.now.short sums.now.full row longest more }
{
    if longest == 0 {
        return 0.0;
    }
    let k = prefix_of(more);
    let at = row * 12 + k as usize;
    if flog(longest) < k {
        suffix_sum(sums.full[at], longest, more)
    } else {
        sums.short[at]
    }
}

// The rate of a run's length: the sum over its bins.
pub fn run_bits(m: RateModel, longest: u32, above: bool, sent: u32, more: u32) -> f32
    requires { (more ≤ longest) × (longest ≤ 1024) }
    ensures { result ≡ run_rate m longest above sent more }
{
    run_from(&run_sums(m), row_of(above, sent), longest, more)
}
