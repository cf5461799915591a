// The writer of the escape levels onto a lent bin list, component by component, from the block's list of numbers, as crate flat lays it out.
#![tactic(auto)]

ghost use Rattle.std.specs.Prelude.{◌≡◌, true, ◌+◌, ◌*◌, ◌^◌, ◌≤◌, ◌<◌, length};
ghost use Rattle.base.specs.Laid.{Laid};
ghost use Rattle.base.specs.Pick.{pick};
ghost use Rattle.h265.specs.Strings.{bits, egk};
ghost use Rattle.flat.specs.Flat.{number, block_of};
ghost use Rattle.putescapes.specs.Escapes.{tail_of, cell_bins, levels_from};
ghost use Rattle.putescapes.specs.Cells.{Sized, Quiet, Next};

use due::{chroma_depth, due_at};
use flat::byte;
use put::put_bits;
use putgolomb::put_egk;

// A level: fixed length where lossless, else Exp-Golomb of order 3.
fn put_level(list: &mut [u8], at: usize, lossless: bool, depth: u32, v: u32) -> usize
    requires { (depth ≤ 32) × (v ≤ 65535) × (at < 2 ^ 62) }
    ensures laid { Laid list.old at (pick lossless (bits depth v) (egk 3 v)) result list.new }
    ensures near { result ≤ at + 33 }
{
    if lossless {
        return put_bits(list, at, v, depth);
    }
    put_egk(list, at, 3, v)
}

// The level of component k at cell i, which escapes, where the component has one there.
fn put_cell(list: &mut [u8], at: usize, block: &[u16], i: usize, k: u8, depth: u32) -> usize
    requires { Sized block.now × (i < 1024) × (k ≤ 2) × (depth ≤ 32) × (at < 2 ^ 62) }
    ensures laid { Laid list.old at (cell_bins (block_of block.now) k depth i) result list.new }
    ensures near { result ≤ at + 33 }
{
    let size = block[0] as usize;
    let format = byte(block[1]);
    if due_at(k, format, size, block[9] == 1, i) {
        let v = block[1360 + 3 * i + k as usize] as u32;
        return put_level(list, at, block[4] == 1, depth, v);
    }
    at
}

// Yes only where none of 16 cells from i on escapes.
fn quiet(block: &[u16], i: usize) -> bool
    requires { (4432 ≤ length block.now) × (i + 16 ≤ 1024) }
    ensures { result ≡ true → Quiet block.now i (i + 16) }
{
    let e = block[5];
    let mut ok = true;
    for x in &block[336 + i..352 + i] {
        ok = ok & (*x != e);
    }
    ok
}

// Past cells none of which escapes, 16 at a time.
fn past_quiet(block: &[u16], from: usize, n: usize) -> usize
    requires { (4432 ≤ length block.now) × (from ≤ n) × (n ≤ 1024) }
    ensures { (from ≤ result) × (result ≤ n) × Quiet block.now from result }
{
    let mut i = from;
    // Stays a while: it passes 16 cells a step, from a place that is no multiple of 16.
    while i + 16 <= n && quiet(block, i) {
        i += 16;
    }
    i
}

// The next cell from `from` on that escapes, or n.
fn next_escape(block: &[u16], from: usize, n: usize) -> usize
    requires { (4432 ≤ length block.now) × (from ≤ n) × (n ≤ 1024) }
    ensures { Next block.now from n result }
{
    let e = block[5];
    for i in past_quiet(block, from, n)..n {
        if block[336 + i] == e {
            return i;
        }
    }
    n
}

// The levels of component k at the first n cells.
fn put_levels(list: &mut [u8], at: usize, block: &[u16], n: usize, k: u8, depth: u32) -> usize
    requires { Sized block.now × (n ≤ 1024) × (k ≤ 2) × (depth ≤ 32) × (at < 2 ^ 61) }
    ensures laid { Laid list.old at (levels_from (block_of block.now) k depth n 0) result list.new }
    ensures near { result ≤ at + 33792 }
{
    let mut p = at;
    let mut i = next_escape(block, 0, n);
    // Stays a while: it goes on from one cell that escapes to the next.
    while i < n {
        p = put_cell(list, p, block, i, k, depth);
        i = next_escape(block, i + 1, n);
    }
    p
}

// All levels of a block's first n cells, where it has escapes.
pub fn put_escapes(list: &mut [u8], at: usize, block: &[u16], n: usize) -> usize
    requires { Sized block.now × (n ≤ 1024) × (at < 2 ^ 60) }
    ensures laid { Laid list.old at (tail_of (block_of block.now) n) result list.new }
    ensures none { (number block.now 8 ≡ 1 → ⊥) → result ≡ at }
{
    if block[8] == 1 {
        let format = byte(block[1]);
        let luma = byte(block[2]) as u32;
        let d = chroma_depth(format, byte(block[3]));
        let p = put_levels(list, at, block, n, 0, luma);
        let q = put_levels(list, p, block, n, 1, d);
        return put_levels(list, q, block, n, 2, d);
    }
    at
}
