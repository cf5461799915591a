// Rate models and run lists as lists of numbers, for callers that have no records. A list may have any length: a rate or number that is missing reads as 0, and what would lie past the end is not laid.
//
// Rates are eighteen: those of the run type's bins 0 and 1, then of each run-prefix context's bins 0 and 1.
// A run has four numbers: 1 where it copies from above, any other where not; the index sent; its further cells; its start.
#![tactic(auto)]

ghost use Rattle.std.specs.Prelude.{◌≡◌, [], ◌∷◌, ◌+◌, ◌*◌, ◌≤◌, length, take, set};
ghost use Rattle.std.proofs.lemmas.List.Edits.{sets};
ghost use Rattle.base.specs.Laid.{Laid};
ghost use Rattle.h265.specs.Strings.{bit};
ghost use Rattle.flat.specs.Flat.{number, each};
ghost use Rattle.flatplan.specs.Flat.{rate_at, pair_at, no_pair, model_of, flat_runs, run_at, runs_of};

use laying::{put, store};
use model::PaletteRun;
use rates::{Pair, RateModel};

// The rate at a place, 0 past the end.
fn rate_at(list: &[f32], i: usize) -> f32
    ensures { result ≡ rate_at list.now i }
{
    list.get(i).copied().unwrap_or(0.0)
}

// The pair at a place.
fn pair_at(list: &[f32], p: usize) -> Pair
    requires { p ≤ 18 }
    ensures { result ≡ pair_at list.now p }
{
    Pair {
        bin0: rate_at(list, p),
        bin1: rate_at(list, p + 1),
    }
}

// The run-prefix pairs.
fn prefix_of(list: &[f32]) -> [Pair; 8]
    ensures { result ≡ each no_pair 8 (λ i. pair_at list.now (2 + 2 * i)) }
{
    let mut out = [Pair {
        bin0: 0.0,
        bin1: 0.0,
    }; 8];
    for (i, pair) in out.iter_mut().enumerate() {
        *pair = pair_at(list, 2 + 2 * i);
    }
    out
}

// The rate model that a list of rates is.
pub fn model_of(list: &[f32]) -> RateModel
    ensures { result ≡ model_of list.now }
{
    RateModel {
        run_type: pair_at(list, 0),
        run_prefix: prefix_of(list),
    }
}

// A run's four numbers; the next place.
fn put_run(list: &mut [u32], at: usize, run: PaletteRun) -> usize
    requires { at ≤ 65532 }
    ensures { Laid list.old at (bit run.above ∷ run.sent ∷ run.more ∷ run.start ∷ []) result list.new }
{
    let a = put(list, at, u32::from(run.above));
    let b = put(list, a, run.sent);
    let c = put(list, b, run.more);
    put(list, c, run.start)
}

// Runs, one after the other.
fn put_runs(list: &mut [u32], runs: &[PaletteRun])
    requires { length runs.now ≤ 1024 }
    ensures { list.new ≡ sets list.old 0 (flat_runs runs.now) }
{
    let mut to: usize = 0;
    for run in runs {
        to = put_run(list, to, *run);
    }
}

// The first runs of an array, as far as the list reaches.
// Stays an array with a count: one past the array's end is answered too.
pub fn lay_runs(runs: [PaletteRun; 1024], count: usize, list: &mut [u32])
    ensures { list.new ≡ sets list.old 0 (flat_runs (take count runs)) }
{
    put_runs(list, &runs[..count.min(1024)]);
}

// The number at a place, 0 past the end.
fn number(list: &[u32], i: usize) -> u32
    ensures { result ≡ number list.now i }
{
    list.get(i).copied().unwrap_or(0)
}

// The run at a place.
fn run_at(list: &[u32], p: usize) -> PaletteRun
    requires { p ≤ 4096 }
    ensures { result ≡ run_at list.now p }
{
    PaletteRun {
        above: number(list, p) == 1,
        sent: number(list, p + 1),
        more: number(list, p + 2),
        start: number(list, p + 3),
    }
}

// The run at a place that is there.
pub fn run_in(list: &[u32], p: usize) -> PaletteRun
    requires { p + 4 ≤ length list.now }
    ensures { result ≡ run_at list.now p }
{
    PaletteRun {
        above: list[p] == 1,
        sent: list[p + 1],
        more: list[p + 2],
        start: list[p + 3],
    }
}

// The first runs that a list of numbers is, at most 1024, and blank ones after them.
pub fn runs_of(list: &[u32], count: usize) -> [PaletteRun; 1024]
    ensures { result ≡ runs_of list.now count }
{
    let mut out = [PaletteRun {
        above: false,
        sent: 0,
        more: 0,
        start: 0,
    }; 1024];
    for i in 0..count.min(1024) {
        out[i] = run_at(list, 4 * i);
    }
    out
}

// A number at the first place, where there is one.
pub fn put_count(list: &mut [usize], x: usize)
    ensures { list.new ≡ set list.old 0 x }
{
    store(list, 0, x);
}
