// Whether a block holds together, and whether an update refuses nothing, seen from the lists of numbers without making the records: quick tests that may say no of what is in order, never yes of what is not.
#![tactic(auto)]

ghost use Rattle.std.specs.Prelude.{◌≡◌, true, ℕ, ◌+◌, ◌-◌, ◌*◌, ◌≤◌, ◌<◌, min, leb, length, take};
ghost use Rattle.base.specs.Pick.{pick};
ghost use Rattle.base.specs.Tests.{up_to};
ghost use Rattle.h265.specs.Reuse.{trues};
ghost use Rattle.flat.specs.Flat.{number, byte, block_of};
ghost use Rattle.model.specs.Domain.{most};
ghost use Rattle.model.specs.Whole.{cell_holds};
ghost use Rattle.flatready.specs.Ready.{framed_of, level_most, BlockReady, Ready};
ghost use Rattle.flatready.specs.Reach.{Under};

use domain::{depth_in, even_in, most_in, size_in};
use flat::byte;

// Whether n numbers from a place on are at most m.
fn at_most(list: &[u16], from: usize, n: usize, m: u16) -> bool
    requires { (from + n ≤ length list.now) × (from ≤ 4432) × (n ≤ 4432) }
    ensures { result ≡ up_to n (λ i. leb (number list.now (from + i)) m) }
{
    let mut ok = true;
    for x in &list[from..from + n] {
        ok = ok & (*x <= m);
    }
    ok
}

// A number that none of four is over m by more than.
fn over_four(a: u16, b: u16, c: u16, d: u16, m: u16) -> u16
    ensures { (a ≤ m + result) × (b ≤ m + result) × (c ≤ m + result) × (d ≤ m + result) }
{
    (a.saturating_sub(m) | b.saturating_sub(m)) | (c.saturating_sub(m) | d.saturating_sub(m))
}

// A number that none of 4 n numbers from a place on is over m by more than: the bits of all that they are over it, four stretches at a time.
fn reach(list: &[u16], from: usize, n: usize, m: u16) -> u16
    requires { (from + 4 * n ≤ length list.now) × (from ≤ 4432) × (n ≤ 1108) }
    ensures { Under list.now from (4 * n) m result }
{
    let mut r = 0;
    for i in 0..n {
        r |= over_four(
            list[from + i],
            list[from + n + i],
            list[from + 2 * n + i],
            list[from + 3 * n + i],
            m,
        );
    }
    r
}

// Whether n numbers from a place on are at most m: all that have room there, or else these.
fn fit(list: &[u16], from: usize, quarter: usize, n: usize, m: u16) -> bool
    requires { (from + 4 * quarter ≤ length list.now) × (from ≤ 4432) × (quarter ≤ 1108) × (n ≤ 4 * quarter) }
    ensures { result ≡ up_to n (λ i. leb (number list.now (from + i)) m) }
{
    reach(list, from, quarter, 0) <= m || at_most(list, from, n, m)
}

// How many of the first `count` flags of a block are on.
fn reused(list: &[u16], count: usize) -> usize
    requires { (count ≤ 128) × (336 ≤ length list.now) }
    ensures { (result ≡ trues (take count (block_of list.now).reused)) × (result ≤ 128) }
{
    let mut t = 0;
    for flag in &list[208..208 + count] {
        if *flag == 1 {
            t += 1;
        }
    }
    t
}

// The clauses on a block's numbers.
fn framed(list: &[u16]) -> bool
    requires { 16 ≤ length list.now }
    ensures { result ≡ framed_of list.now }
{
    let size = list[0] as usize;
    let format = byte(list[1]);
    let luma = byte(list[2]);
    let chroma = byte(list[3]);
    size_in(size)
        & even_in(format, size)
        & (format <= 3)
        & depth_in(luma)
        & depth_in(chroma)
        & (list[5] <= 64)
        & (list[10] <= 16)
}

// A bound that levels in range of the luma depth have.
fn level_most(list: &[u16]) -> u16
    requires { 16 ≤ length list.now }
    ensures { result ≤ level_most list.now }
{
    if list[4] == 1 {
        most_in(byte(list[2]))
    } else {
        32767
    }
}

// Whether the indices of 64 cells from i on are of entries, or else escapes are on and the levels of these cells at most m.
fn band_ready(list: &[u16], i: usize, n: u16, m: u16) -> bool
    requires { (4432 ≤ length list.now) × (i + 64 ≤ 1024) × (1 ≤ n) × (n ≤ 64) × (n ≡ number list.now 5) × (number list.now 2 ≡ number list.now 3) × (m ≤ level_most list.now) }
    ensures { result ≡ true → (k : ℕ) → i ≤ k → k < i + 64 → cell_holds (block_of list.now) k ≡ true }
{
    if reach(list, 336 + i, 16, n - 1) == 0 {
        return true;
    }
    if list[8] == 1 {
        if reach(list, 336 + i, 16, n) == 0 {
            return reach(list, 1360 + 3 * i, 48, 0) <= m;
        }
    }
    false
}

// Whether all cells are so, band by band.
fn cells_ready(list: &[u16], cells: usize, n: u16) -> bool
    requires { (4432 ≤ length list.now) × (cells ≤ 1024) × (1 ≤ n) × (n ≤ 64) × (n ≡ number list.now 5) × (number list.now 2 ≡ number list.now 3) }
    ensures { result ≡ true → up_to cells (cell_holds (block_of list.now)) ≡ true }
{
    let m = level_most(list);
    for g in 0..cells.div_ceil(64) {
        if !band_ready(list, 64 * g, n, m) {
            return false;
        }
    }
    true
}

// Yes only where the list is whole and the block holds together; it has entries, a format with chroma and one depth.
pub fn block_ready(block: &[u16]) -> bool
    ensures { result ≡ true → BlockReady block.now }
{
    if block.len() < 4432 {
        return false;
    }
    let n = block[5];
    let count = block[6] as usize;
    if framed(block) & (count <= 128) {
        if (1 <= n) & (1 <= block[1]) & (block[2] == block[3]) {
            let side = block[0] as usize;
            let m = most_in(byte(block[2]));
            let t = reused(block, count);
            return (t + block[7] as usize == n as usize)
                & fit(block, 16, 48, 3 * n as usize, m)
                & cells_ready(block, side * side, n);
        }
    }
    false
}

// Yes only where the lists are whole and the update refuses nothing.
pub fn ready(predictor: &[u16], block: &[u16], limit: usize) -> bool
    ensures { result ≡ true → Ready predictor.now block.now limit }
{
    if predictor.len() < 385 {
        return false;
    }
    if block_ready(block) {
        let size = predictor[0] as usize;
        if (size <= 128) & (limit <= 128) {
            let m = most_in(byte(block[2]));
            return fit(predictor, 1, 96, 3 * size, m);
        }
    }
    false
}
