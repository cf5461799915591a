// What the planner measures of a block's cells, once: the cells above, how far runs go, and where the next stretch begins.
#![tactic(auto)]

ghost use Rattle.std.specs.Prelude.{◌≡◌, ℕ, ◌+◌, ◌*◌, ◌≤◌, ◌<◌, eqb, get_or};
ghost use Rattle.base.specs.Cells.{laid};
ghost use Rattle.base.specs.Pick.{pick};
ghost use Rattle.h265.specs.Scan.{above_at};
ghost use Rattle.paths.specs.Cells.{index_length, above_length};
ghost use Rattle.paths.specs.Stretch.{next_stretch};
ghost use Rattle.measure.specs.Steps.{stretch_step};

// How far an index goes on from each cell, how many cells can be copied from it on, and where the next stretch begins.
#[derive(Clone, Copy)]
pub struct Lengths {
    pub index: [u16; 1026],
    pub above: [u16; 1026],
    pub next: [u16; 1026],
}

// Row 0, which has no cells above: 0.
// Stays an array, here and in the rows below: size is the side of the block in it.
fn first_row(above: &mut [u8; 1024], size: usize)
    requires { size ≤ 32 }
    ensures { above.new ≡ laid (λ i. 0) above.old 0 size }
{
    above[..size].fill(0);
}

// A later row: each cell above stands as far before the row's start as its own cell stands after it.
fn later_row(xs: &[u8; 1024], above: &mut [u8; 1024], size: usize, row: usize)
    requires { (1 ≤ row) × (row < size) × (size ≤ 32) }
    ensures { above.new ≡ laid (above_at size xs.now) above.old (row * size) size }
{
    let start = row * size;
    for j in 0..size {
        above[start + j] = xs[start - 1 - j];
    }
}

// One row of the cells above.
fn above_row(xs: &[u8; 1024], above: &mut [u8; 1024], size: usize, row: usize)
    requires { (row < size) × (size ≤ 32) }
    ensures { above.new ≡ laid (above_at size xs.now) above.old (row * size) size }
{
    if row == 0 {
        first_row(above, size);
    } else {
        later_row(xs, above, size, row);
    }
}

// The index above each cell, 0 in row 0.
pub fn fill_above(xs: &[u8; 1024], above: &mut [u8; 1024], size: usize)
    requires { size ≤ 32 }
    ensures { above.new ≡ laid (above_at size xs.now) above.old 0 (size * size) }
{
    for row in 0..size {
        above_row(xs, above, size, row);
    }
}

// How far an index goes on from a cell, from the cell after it and how far that one's goes.
fn index_step(v: u8, next: u8, len: u16) -> u16
    requires { len ≤ 1024 }
    ensures { result ≡ pick (eqb v next) (len + 1) 1 }
{
    if v == next { len + 1 } else { 1 }
}

// How many cells can be copied from a cell on, from the cell after it.
fn above_step(here: bool, len: u16) -> u16
    requires { len ≤ 1024 }
    ensures { result ≡ pick here (len + 1) 0 }
{
    if here { len + 1 } else { 0 }
}

// Where the next stretch begins from p on: p itself, or where it does from the cell after.
fn stretch_step(below: bool, len: u16, p: u16, after: u16) -> u16
    ensures { result ≡ stretch_step below len p after }
{
    if len == 0 || below { after } else { p }
}

// How far the index goes on from each cell, how many cells can be copied, and where the next stretch begins: from the last cell back. In row 0 none can be copied.
// Stays arrays with n beside: the lengths go one place past the cells.
pub fn fill_lengths(
    xs: &[u8; 1024],
    above: &[u8; 1024],
    lengths: &mut Lengths,
    size: usize,
    n: usize,
)
    requires { (n ≤ 1024) × ((i : ℕ) → i < n → get_or above.now i 0 ≡ above_at size xs.now i) }
    ensures { (lengths.new.index ≡ laid (index_length n xs.now) lengths.old.index 0 n)
        × (lengths.new.above ≡ laid (above_length size n xs.now) lengths.old.above 0 (n + 1))
        × (lengths.new.next ≡ laid (next_stretch size n xs.now) lengths.old.next 1 n) }
{
    let mut after: u8 = 0;
    let mut run: u16 = 0;
    let mut copied: u16 = 0;
    let mut stretch = n as u16;
    for p in (0..n).rev() {
        let v = xs[p];
        run = index_step(v, after, run);
        lengths.index[p] = run;
        after = v;
        let here = (size <= p) & (v == above[p]);
        stretch = stretch_step(here, copied, (p + 1) as u16, stretch);
        lengths.next[p + 1] = stretch;
        copied = above_step(here, copied);
        lengths.above[p] = copied;
    }
    lengths.above[n] = 0;
}
