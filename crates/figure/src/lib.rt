// The samples of a block in scan order, and its error figure.
#![tactic(auto)]

ghost use Rattle.std.specs.Prelude.{◌≡◌, Bool, true, false, ℕ, ◌+◌, ◌*◌, ◌%◌, ◌<◌, ◌≤◌, eqb, length, get_or};
ghost use Rattle.base.specs.Pick.{pick};
ghost use Rattle.base.specs.Cells.{laid};
ghost use Rattle.base.specs.Sums.{sum_to};
ghost use Rattle.h265.specs.Scan.{along};
ghost use Rattle.model.specs.Domain.{sub_w, sub_h};
ghost use Rattle.figure.specs.Figure.{scan_sample, square, error_of, figure_of};
ghost use Rattle.figure.specs.Laws.{in_rows, row_error};

// The column of place x of a row: odd rows are turned.
fn column(size: usize, row: usize, x: usize) -> usize
    requires { x < size }
    ensures { (result ≡ along size row x) × (result < size) }
{
    if row % 2 == 0 { x } else { size - 1 - x }
}

// Where the sample of a cell of the scan grid stands among the samples row by row.
fn place(transpose: bool, size: usize, row: usize, col: usize) -> usize
    requires { (size ≤ 32) × (row < size) × (col < size) }
    ensures { (result ≡ pick transpose (col * size + row) (row * size + col)) × (result < 1024) }
{
    if transpose {
        col * size + row
    } else {
        row * size + col
    }
}

// One row of the samples in scan order.
fn unroll_row(cells: &[u64; 1024], transpose: bool, size: usize, row: usize, out: &mut [u64])
    requires { (size ≤ 32) × (row < size) × (length out.old ≡ size) }
    ensures { out.new ≡ laid (λ x. scan_sample transpose size (in_rows size cells.now) (row * size + x)) out.old 0 (length out.old) }
{
    for (x, cell) in out.iter_mut().enumerate() {
        *cell = cells[place(transpose, size, row, column(size, row, x))];
    }
}

// The samples in scan order, from those row by row.
pub fn unroll(cells: &[u64; 1024], transpose: bool, size: usize, out: &mut [u64; 1024])
    requires { size ≤ 32 }
    ensures { out.new ≡ laid (scan_sample transpose size (in_rows size cells.now)) out.old 0 (size * size) }
{
    for row in 0..size {
        let from = row * size;
        let part = &mut out[from..from + size];
        unroll_row(cells, transpose, size, row, part);
    }
}

// How far two numbers are apart, squared.
fn squared(a: u64, b: u64) -> u64
    requires { (a < 65536) × (b < 65536) }
    ensures { (result ≡ square a b) × (result ≤ 4294836225) }
{
    let d = a.abs_diff(b);
    d * d
}

// The error of one cell.
#[tactic(auto, unfolding(crate::specs::Figure::error_of))]
fn cell_error(chroma: bool, a: u64, b: u64) -> u64
    ensures { (result ≡ error_of chroma a b) × (result ≤ 12884508675) }
{
    if a == b {
        return 0;
    }
    let y = squared(a % 65536, b % 65536);
    if chroma {
        return y
            + squared(a / 65536 % 65536, b / 65536 % 65536)
            + squared(a / 4294967296 % 65536, b / 4294967296 % 65536);
    }
    y
}

// Whether k is a multiple of by, which is 1 or 2.
fn multiple(k: usize, by: usize) -> bool
    requires { (1 ≤ by) × (by ≤ 2) }
    ensures { result ≡ eqb (k % by) 0 }
{
    by == 1 || k % 2 == 0
}

// The error of one row; where the row has chroma, there is a chroma sample every cx columns.
fn row_error(values: &[u64], cells: &[u64], row: usize, chroma: bool, cx: usize) -> u64
    requires { (length values.now ≤ 32) × (length cells.now ≡ length values.now) × (1 ≤ cx) × (cx ≤ 2) }
    ensures { (result ≡ sum_to (length values.now) (row_error values.now cells.now (length values.now) row 0 chroma cx)) × (result ≤ 412304277600) }
{
    let mut sum = 0;
    for (x, value) in values.iter().enumerate() {
        let col = column(values.len(), row, x);
        let c = chroma & multiple(col, cx);
        sum += cell_error(c, *value, cells[col]);
    }
    sum
}

// The columns of the scan grid to one of chroma.
fn grid_w(format: u8, transpose: bool) -> usize
    ensures { (result ≡ pick transpose (sub_h format) (sub_w format)) × (1 ≤ result) × (result ≤ 2) }
{
    if transpose {
        samples::sub_h(format)
    } else {
        samples::sub_w(format)
    }
}

// The rows of the scan grid to one of chroma.
fn grid_h(format: u8, transpose: bool) -> usize
    ensures { (result ≡ pick transpose (sub_w format) (sub_h format)) × (1 ≤ result) × (result ≤ 2) }
{
    if transpose {
        samples::sub_w(format)
    } else {
        samples::sub_h(format)
    }
}

// The error figure: values in scan order against samples row by row.
pub fn error_figure(
    values: &[u64; 1024],
    cells: &[u64; 1024],
    size: usize,
    format: u8,
    transpose: bool,
) -> u64
    requires { size ≤ 32 }
    ensures { result ≡ figure_of format transpose size (λ j. get_or values.now j 0) (in_rows size cells.now) }
{
    let cx = grid_w(format, transpose);
    let ry = grid_h(format, transpose);
    let mut sum = 0;
    for row in 0..size {
        let chroma = (format != 0) & multiple(row, ry);
        let from = row * size;
        let to = from + size;
        sum += row_error(&values[from..to], &cells[from..to], row, chroma, cx);
    }
    sum
}
