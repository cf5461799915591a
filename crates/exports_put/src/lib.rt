// The writers of single codes for other languages, nothing required. Each lays its bins from place `at` on, as far as the list reaches, and answers the place after them; outside its domain it lays none.
#![tactic(auto)]

ghost use Rattle.std.specs.Prelude.{◌≡◌, ◌≤◌, length, take};
ghost use Rattle.base.specs.Laid.{Laid};
ghost use Rattle.exports_put.specs.Bins.{near, bits_out, tb_out, egk_out, count_out, run_out, reuse_out};

use put::{put_bits, put_tb};
use putcount::put_count;
use putgolomb::put_egk;
use putreuse::put_reuse;
use putrun::put_run;

// The last place from which bins are laid.
const FAR: usize = 4611686018427387904;

// The n low bits of a value.
#[unsafe(no_mangle)]
#[tactic(auto, unfolding(crate::specs::Bins::bits_out), using(base::specs::Laid::laid_none))]
pub extern "C" fn velomitra_put_bits(list: &mut [u8], at: usize, value: u32, n: u32) -> usize
    ensures { Laid list.old at (near at (bits_out n value)) result list.new }
{
    if FAR < at || 32 < n {
        return at;
    }
    put_bits(list, at, value, n)
}

// Truncated binary over n values.
#[unsafe(no_mangle)]
#[tactic(auto, unfolding(crate::specs::Bins::tb_out), using(base::specs::Laid::laid_none))]
pub extern "C" fn velomitra_put_tb(list: &mut [u8], at: usize, n: u32, v: u32) -> usize
    ensures { Laid list.old at (near at (tb_out n v)) result list.new }
{
    if FAR < at || 65536 < n || n <= v {
        return at;
    }
    put_tb(list, at, n, v)
}

// Exp-Golomb of an order.
#[unsafe(no_mangle)]
#[tactic(auto, unfolding(crate::specs::Bins::egk_out), using(base::specs::Laid::laid_none))]
pub extern "C" fn velomitra_put_egk(list: &mut [u8], at: usize, order: u32, value: u32) -> usize
    ensures { Laid list.old at (near at (egk_out order value)) result list.new }
{
    if FAR < at || 13 < order || 65535 < value {
        return at;
    }
    put_egk(list, at, order, value)
}

// The index count, less 1, where M is m.
#[unsafe(no_mangle)]
#[tactic(auto, unfolding(crate::specs::Bins::count_out), using(base::specs::Laid::laid_none))]
pub extern "C" fn velomitra_put_count(list: &mut [u8], at: usize, m: u32, v: u32) -> usize
    ensures { Laid list.old at (near at (count_out m v)) result list.new }
{
    if FAR < at || 64 < m || 65535 < v {
        return at;
    }
    put_count(list, at, m, v)
}

// A run of `more` further cells of at most `longest`.
#[unsafe(no_mangle)]
#[tactic(auto, unfolding(crate::specs::Bins::run_out), using(base::specs::Laid::laid_none))]
pub extern "C" fn velomitra_put_run(
    list: &mut [u8],
    at: usize,
    longest: u32,
    above: bool,
    sent: u32,
    more: u32,
) -> usize
    ensures { Laid list.old at (near at (run_out longest above sent more)) result list.new }
{
    if FAR < at || 1024 < longest || longest < more {
        return at;
    }
    put_run(list, at, longest, above, sent, more)
}

// The reuse runs of all flags under a palette limit.
#[unsafe(no_mangle)]
#[tactic(auto, unfolding(crate::specs::Bins::reuse_out), using(base::specs::Laid::laid_none))]
pub extern "C" fn velomitra_put_reuse(
    list: &mut [u8],
    at: usize,
    limit: u32,
    flags: &[bool],
) -> usize
    ensures { Laid list.old at (near at (reuse_out limit flags.now)) result list.new }
{
    if FAR < at || 64 < limit || 128 < flags.len() {
        return at;
    }
    put_reuse(list, at, limit, flags)
}
