// The writer of the indices sent, one for each index run, onto a lent bin list; and what it learns of a run list first.
#![tactic(auto)]

ghost use Rattle.std.specs.Prelude.{◌≡◌, false, [], ◌+◌, ◌-◌, ◌*◌, ◌^◌, ◌≤◌, ◌<◌, eqb, length};
ghost use Rattle.base.specs.Codes.{each_bins, Each};
ghost use Rattle.base.specs.Laid.{Laid};
ghost use Rattle.base.specs.Pick.{pick};
ghost use Rattle.flatplan.specs.Flat.{first_of};
ghost use Rattle.h265.specs.Strings.{tb};
ghost use Rattle.h265.specs.Strings as S;
ghost use Rattle.syntax.specs.Block.{alphabets};
ghost use Rattle.syntax.specs.MapLaws.{Under};
ghost use Rattle.syntax.specs.Runs.{sent_of, final_of};

use bins::flog;
use flatplan::run_in;
use model::PaletteRun;
use put::{put_cut, put_tb, shorts};
use runstate::used_after;

// How many of the first `count` runs are index runs.
pub fn count_index(runs: &[u32], count: usize) -> u32
    requires { (count ≤ 1024) × (4 * count ≤ length runs.now) }
    ensures { result ≡ length (sent_of (first_of runs.now count)) }
{
    let mut k = 0;
    for i in 0..count {
        k = used_after(k, run_in(runs, 4 * i).above);
    }
    k
}

// The kind of the last of the first `count` runs.
pub fn final_kind(runs: &[u32], count: usize) -> bool
    requires { (count ≤ 1024) × (4 * count ≤ length runs.now) }
    ensures { result ≡ final_of false (first_of runs.now count) }
{
    0 < count && run_in(runs, 4 * (count - 1)).above
}

// The alphabet of all indices but the first: its size, with its logarithm and its short strings.
#[derive(Clone, Copy)]
struct Alphabet {
    size: u32,
    log: u32,
    short: u32,
    ghost small: { (1 ≤ size) × (size ≤ 64) × (log ≤ 16) × (short ≤ 131072) },
    ghost known: { (log ≡ S.flog size) × (short ≡ S.short size) },
}

// The alphabet where the greatest index is m.
fn alphabet_of(m: u32) -> Alphabet
    requires { (1 ≤ m) × (m ≤ 64) }
    ensures { result.size ≡ m }
{
    let log = flog(m);
    let short = shorts(m, log);
    Alphabet {
        size: m,
        log,
        short,
    }
}

// The index of one run, where it has one; k index runs came before.
#[tactic(auto, using(base::specs::Laid::laid_none))]
fn put_index(list: &mut [u8], at: usize, alphabet: Alphabet, k: u32, run: PaletteRun) -> usize
    requires { (at + 32 < 2 ^ 63) × (run.above ≡ false → run.sent < pick (eqb k 0) (alphabet.size + 1) alphabet.size) }
    ensures laid { Laid list.old at (pick run.above [] (tb (pick (eqb k 0) (alphabet.size + 1) alphabet.size) run.sent)) result list.new }
    ensures near { result ≤ at + 32 }
{
    if run.above {
        return at;
    }
    if k == 0 {
        return put_tb(list, at, alphabet.size + 1, run.sent);
    }
    put_cut(list, at, alphabet.log, alphabet.short, run.sent)
}

// The indices of the first `count` runs, of which `total` are index runs.
pub fn put_indices(
    list: &mut [u8],
    at: usize,
    m: u32,
    runs: &[u32],
    count: usize,
    total: u32,
) -> usize
    requires { (1 ≤ m) × (m ≤ 64) × (at < 2 ^ 62) × (count ≤ 1024) × (4 * count ≤ length runs.now) × (1 ≤ total) × Each Under (alphabets m (total - 1)) (sent_of (first_of runs.now count)) }
    ensures laid { Laid list.old at (each_bins tb (alphabets m (total - 1)) (sent_of (first_of runs.now count))) result list.new }
    ensures near { result ≤ at + 32 * count }
{
    let alphabet = alphabet_of(m);
    let mut to = at;
    let mut k = 0;
    for i in 0..count {
        let run = run_in(runs, 4 * i);
        to = put_index(list, to, alphabet, k, run);
        k = used_after(k, run.above);
    }
    to
}
