// The traverse scan: the cell of a scan place, the scan place of a cell, and the cell above.
#![tactic(auto)]

ghost use Rattle.std.specs.Prelude.{◌≡◌, ◌≤◌, ◌<◌};
ghost use Rattle.h265.specs.Scan as S;

// A cell of a block.
#[derive(Clone, Copy, PartialEq, Eq)]
pub struct Pos {
    pub col: usize,
    pub row: usize,
}

// The column of cell x of a row, and the other way round: odd rows are turned.
fn along(x: usize, row: usize, size: usize) -> usize
    requires { x < size }
    ensures { (result ≡ S.along size row x) × (result < size) }
{
    if row.is_multiple_of(2) {
        x
    } else {
        size - 1 - x
    }
}

// The cell at scan place i.
pub fn scan_pos(i: usize, size: usize) -> Pos
    requires { 1 ≤ size }
    ensures { (result.col ≡ S.col_of size i) × (result.row ≡ S.row_of size i) }
{
    let row = i / size;
    Pos {
        col: along(i % size, row, size),
        row,
    }
}

// The scan place of a cell.
pub fn scan_pos_inv(col: usize, row: usize, size: usize) -> usize
    requires { (size ≤ 32) × (col < size) × (row < size) }
    ensures { result ≡ S.scan_at size col row }
{
    row * size + along(col, row, size)
}

// The scan place of the cell above, an earlier one.
pub fn place_above(i: usize, size: usize) -> usize
    requires { (1 ≤ size) × (size ≤ i) × (i < 1024) }
    ensures { (result ≡ S.place_above size i) × (result < i) }
{
    let row = i / size * size;
    2 * row - (i + 1)
}
