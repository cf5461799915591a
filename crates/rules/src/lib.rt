// Refusal 8: the test of a run list against the block's indices.
#![tactic(auto)]

ghost use Rattle.std.specs.Prelude.{◌≡◌, false, ℕ, ◌+◌, ◌-◌, ◌*◌, ◌%◌, ◌^◌, ◌≤◌, ◌<◌, eqb, length, take, drop, get_or};
ghost use Rattle.base.specs.Pick.{pick};
ghost use Rattle.flatplan.specs.Flat.{first_of};
ghost use Rattle.syntax.specs.Replay.{less_one};
ghost use Rattle.syntax.specs.Test.{copied, drawn, replays};
ghost use Rattle.rules.specs.Turns.{Above, sent_as, starts, holds};
ghost use Rattle.rules.specs.Words.{Word, WordAt};

use flatplan::run_in;
use model::PaletteRun;
use runstate::end_of;

// The cells above row r: the row before it, the other way round.
#[tactic(auto, using(base::specs::Cells::row_small, crate::specs::Turns::row_low))]
fn fill_row(up: &mut [u16; 1028], cells: &[u16], size: usize, r: usize)
    requires { (1 ≤ r) × (r < size) × (size ≤ 32) × (1028 ≤ length cells.now) × (length up.old ≡ 1028) × Above size cells.now up.old (r * size) }
    ensures { (length up.new ≡ 1028) × Above size cells.now up.new (r * size + size) }
{
    let row = r * size;
    for j in 0..size {
        up[row + j] = cells[row - (j + 1)];
    }
}

// The index above each cell; 0 in row 0.
fn rows_above(cells: &[u16], size: usize) -> [u16; 1028]
    requires { (1 ≤ size) × (size ≤ 32) × (1028 ≤ length cells.now) }
    ensures { Above size cells.now result (size * size) }
{
    let mut up = [0; 1028];
    for r in 1..size {
        fill_row(&mut up, cells, size, r);
    }
    up
}

// The index above each cell. A block of 32 is told apart, so that the length of its rows is known beforehand.
fn cells_above(cells: &[u16], size: usize) -> [u16; 1028]
    requires { (1 ≤ size) × (size ≤ 32) × (1028 ≤ length cells.now) }
    ensures { Above size cells.now result (size * size) }
{
    if size == 32 {
        rows_above(cells, 32)
    } else {
        rows_above(cells, size)
    }
}

// The four numbers from place i on as one, the first lowest.
fn word(list: &[u16], i: usize) -> u64
    requires { i + 4 ≤ length list.now }
    ensures { WordAt list.now i result }
{
    let a = u64::from(list[i]);
    let b = u64::from(list[i + 1]);
    let c = u64::from(list[i + 2]);
    let d = u64::from(list[i + 3]);
    a + b * 65536 + c * 4294967296 + d * 281474976710656
}

// The word of four times v.
fn four_times(v: u16) -> u64
    ensures { Word v v v v result }
{
    u64::from(v) * 281479271743489
}

// 0 where the first k numbers of two words are the same.
fn first_differ(a: u64, b: u64, k: usize) -> u64
    requires { (1 ≤ k) × (k ≤ 4) }
    ensures { eqb result 0 ≡ eqb (a % 2 ^ (16 * k)) (b % 2 ^ (16 * k)) }
{
    let s = (64 - 16 * k) as u64;
    (a << s) ^ (b << s)
}

// 0 where each cell of a run holds the index above it.
fn copied_run(cells: &[u16], up: &[u16], at: usize, to: usize) -> u64
    requires { (at < to) × (to ≤ 1024) × (1028 ≤ length cells.now) × (1028 ≤ length up.now) }
    ensures { (size : ℕ) → Above size cells.now up.now to → eqb result 0 ≡ copied size cells.now (to - at) at }
{
    let mut bad: u64 = 0;
    let mut i = at;
    // Stays a while, here and in drawn_run: a word of four cells a step, and the last word of one to four of them.
    while i + 4 < to {
        let a = word(cells, i);
        let b = word(up, i);
        bad |= a ^ b;
        if bad != 0 {
            return bad;
        }
        i += 4;
    }
    let a = word(cells, i);
    let b = word(up, i);
    bad | first_differ(a, b, to - i)
}

// 0 where each cell of a run holds v.
fn drawn_run(cells: &[u16], v: u16, at: usize, to: usize) -> u64
    requires { (at < to) × (to ≤ 1024) × (1028 ≤ length cells.now) }
    ensures { eqb result 0 ≡ drawn v cells.now (to - at) at }
{
    let four = four_times(v);
    let mut bad: u64 = 0;
    let mut i = at;
    while i + 4 < to {
        let a = word(cells, i);
        bad |= a ^ four;
        if bad != 0 {
            return bad;
        }
        i += 4;
    }
    let a = word(cells, i);
    bad | first_differ(a, four, to - i)
}

// 0 where the cells of a run are as it says.
#[tactic(auto, unfolding(crate::specs::Turns::holds))]
fn run_differs(cells: &[u16], up: &[u16], above: bool, at: usize, to: usize) -> u64
    requires { (at < to) × (to ≤ 1024) × (1028 ≤ length cells.now) × (1028 ≤ length up.now) }
    ensures { (size : ℕ) → Above size cells.now up.now to → eqb result 0 ≡ holds size cells.now at above (to - at) }
{
    if above {
        copied_run(cells, up, at, to)
    } else {
        drawn_run(cells, cells[at], at, to)
    }
}

// The index sent for v: one less where v is above its reference.
#[tactic(auto, unfolding(syntax::specs::Replay::less_one))]
fn less_one(v: u16, f: u16) -> u16
    ensures { result ≡ less_one v f }
{
    if f < v { v - 1 } else { v }
}

// The reference of an index run past the start: after a copy-above run the cell above, else the cell before.
fn reference_in(cells: &[u16], up: &[u16], prev: bool, scan: usize) -> u16
    requires { (scan < 1024) × (1028 ≤ length cells.now) × (1028 ≤ length up.now) }
    ensures { 1 ≤ scan → result ≡ pick prev (get_or up.now scan 0) (get_or cells.now (scan - 1) 0) }
{
    if prev {
        up[scan]
    } else if scan == 0 {
        0
    } else {
        cells[scan - 1]
    }
}

// Whether the index sent is that of a run of v, where f is its reference.
#[tactic(auto, unfolding(crate::specs::Turns::sent_as, syntax::specs::Test::both))]
fn sent_right(v: u16, f: u16, m: u32, scan: usize, sent: u32) -> bool
    requires { m ≤ 1024 }
    ensures { result ≡ sent_as m v f scan sent }
{
    if scan == 0 {
        sent == u32::from(v) && sent < m + 1
    } else {
        v != f && sent == u32::from(less_one(v, f)) && sent < m
    }
}

// Whether a run may start at place `scan`, its other cells not looked at.
#[tactic(auto, unfolding(crate::specs::Turns::starts, syntax::specs::Test::both))]
fn may_start(
    cells: &[u16],
    up: &[u16],
    size: usize,
    m: u32,
    scan: usize,
    prev: bool,
    r: PaletteRun,
) -> bool
    requires { (scan < 1024) × (m ≤ 1024) × (1028 ≤ length cells.now) × (1028 ≤ length up.now) × Above size cells.now up.now (scan + 1) }
    ensures { result ≡ starts size m cells.now scan prev r }
{
    if r.start as usize != scan {
        return false;
    }
    if r.above {
        return !prev && size <= scan && r.sent == 0;
    }
    let f = reference_in(cells, up, prev, scan);
    sent_right(cells[scan], f, m, scan, r.sent)
}

// Whether the first `count` runs replay to the n indices from place `from` on under the run rules.
pub fn replays_to(
    cells: &[u16],
    from: usize,
    size: usize,
    n: usize,
    m: u32,
    runs: &[u32],
    count: usize,
) -> bool
    requires { (1 ≤ size) × (size ≤ 32) × (n ≡ size * size) × (n ≤ 1024) × (from ≤ 4432) × (from + 1028 ≤ length cells.now) × (count ≤ 1024) × (m ≤ 1024) × (4 * count ≤ length runs.now) }
    ensures { result ≡ replays size n m (take n (drop from cells.now)) 0 false (first_of runs.now count) }
{
    let cells = &cells[from..];
    let up = cells_above(cells, size);
    let mut bad = 0;
    let mut scan = 0;
    let mut prev = false;
    for i in 0..count {
        let r = run_in(runs, 4 * i);
        if n - scan <= r.more as usize || !may_start(cells, &up, size, m, scan, prev, r) {
            return false;
        }
        let to = end_of(scan, r.more);
        bad |= run_differs(cells, &up, r.above, scan, to);
        scan = to;
        prev = r.above;
    }
    (bad == 0) & (scan == n)
}
