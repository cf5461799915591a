// At how many places two lists, planes or blocks differ. Blocks are lists of numbers, as crate flat lays them out.
#![tactic(auto)]

ghost use Rattle.std.specs.Prelude.{◌≡◌, ◌+◌, ◌*◌, ◌≤◌};
ghost use Rattle.flat.specs.Flat.{number};
ghost use Rattle.compare.specs.Compare.{unlike, differing, clipped, differing_samples, level_sent, same_level, same_cell, differing_cells};

use due::due_at;
use extent::area;

// The number at a place, 0 past the end.
pub fn number(list: &[u16], i: usize) -> u16
    ensures { result ≡ number list.now i }
{
    list.get(i).copied().unwrap_or(0)
}

// 1 where two numbers differ.
fn unlike(x: u16, y: u16) -> usize
    ensures { (result ≡ unlike x y) × (result ≤ 1) }
{
    (x != y) as usize
}

// Of n places from p on, those where two lists differ.
#[tactic(auto, unfolding(crate::specs::Compare::differing))]
pub fn differing(a: &[u16], b: &[u16], p: usize, n: u16) -> usize
    requires { p ≤ 1099511627776 }
    ensures { (result ≡ differing a.now b.now p n) × (result ≤ 65535) }
{
    let mut sum = 0;
    for i in 0..usize::from(n) {
        sum += unlike(number(a, p + i), number(b, p + i));
    }
    sum
}

// The places from x on, of so many, that are below w.
fn clipped(w: u16, x: u16, size: u16) -> u16
    ensures { result ≡ clipped w x size }
{
    size.min(w.saturating_sub(x))
}

// The place of column x and row y in a plane of width w.
fn place(w: u16, x: u16, y: u16) -> usize
    ensures { (result ≡ y * w + x) × (result ≤ 4294967296) }
{
    usize::from(y) * usize::from(w) + usize::from(x)
}

// Of the samples of a block that lie within two planes of w × h, those that differ.
#[tactic(auto, unfolding(crate::specs::Compare::differing_samples))]
pub fn differing_samples(a: &[u16], b: &[u16], w: u16, h: u16, x: u16, y: u16, size: u16) -> usize
    ensures { (result ≡ differing_samples a.now b.now w h x y size) × (result ≤ 4294967296) }
{
    let cols = clipped(w, x, size);
    let mut at = place(w, x, y);
    let mut sum = 0;
    for row in 0..clipped(h, y, size) {
        sum += differing(a, b, at, cols);
        at += usize::from(w);
    }
    sum
}

// The level of a component that is sent of a cell; 0 where none is.
#[tactic(auto, unfolding(crate::specs::Compare::level_sent))]
fn level_sent(a: &[u16], size: usize, format: u8, turned: bool, k: u8, i: usize) -> u16
    requires { (1 ≤ size) × (i ≤ 1024) }
    ensures { result ≡ level_sent a.now size format turned k i }
{
    if number(a, 336 + i) == number(a, 5) && due_at(k, format, size, turned, i) {
        number(a, 1360 + 3 * i + usize::from(k))
    } else {
        0
    }
}

// Whether the level read of a cell is the one sent.
fn same_level(a: &[u16], b: &[u16], size: usize, format: u8, turned: bool, k: u8, i: usize) -> bool
    requires { (1 ≤ size) × (i ≤ 1024) }
    ensures { result ≡ same_level a.now b.now size format turned k i }
{
    number(b, 1360 + 3 * i + usize::from(k)) == level_sent(a, size, format, turned, k, i)
}

// Whether the cell read is the one written.
#[tactic(auto, unfolding(crate::specs::Compare::same_cell))]
fn same_cell(a: &[u16], b: &[u16], size: usize, format: u8, turned: bool, i: usize) -> bool
    requires { (1 ≤ size) × (i ≤ 1024) }
    ensures { result ≡ same_cell a.now b.now size format turned i }
{
    number(b, 336 + i) == number(a, 336 + i)
        && same_level(a, b, size, format, turned, 0, i)
        && same_level(a, b, size, format, turned, 1, i)
        && same_level(a, b, size, format, turned, 2, i)
}

// Of the cells of a block, those where the block read is not the block written.
#[tactic(auto, unfolding(crate::specs::Compare::differing_cells))]
pub fn differing_cells(a: &[u16], b: &[u16], size: usize, format: u8, turned: bool) -> usize
    requires { size ≤ 32 }
    ensures { (result ≡ differing_cells a.now b.now size format turned) × (result ≤ 1024) }
{
    let mut sum = 0;
    for i in 0..area(size) {
        sum += !same_cell(a, b, size, format, turned, i) as usize;
    }
    sum
}
