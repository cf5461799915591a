// The samples of a block from lent planes, as packed colours, row by row from the left.
#![tactic(auto)]

ghost use Rattle.std.specs.Prelude.{◌≡◌, Bool, true, false, ℕ, ◌+◌, ◌-◌, ◌*◌, ◌/◌, ◌%◌, ◌<◌, ◌≤◌, min, length, slice_range};
ghost use Rattle.base.specs.Cells.{laid};
ghost use Rattle.model.specs.Domain.{sub_w, sub_h, source_in, planes_in};
ghost use Rattle.samples.specs.Samples.{cell_at};
ghost use Rattle.samples.specs.Laws.{in_row, grey_cell, color_cell, luma_cell, has_chroma};

use model::SourceBlock;

// Division by 1 or 2.
fn down(x: usize, by: usize) -> usize
    requires { (1 ≤ by) × (by ≤ 2) }
    ensures { result ≡ x / by }
{
    if by == 2 { x / 2 } else { x }
}

// Column x, held to the row.
fn in_row(row: &[u16], x: usize) -> u16
    requires { 1 ≤ length row.now }
    ensures { result ≡ in_row row.now 0 (length row.now) x }
{
    row[x.min(row.len() - 1)]
}

// One row without chroma.
fn row_grey(luma: &[u16], x0: usize, cells: &mut [u64])
    requires { (1 ≤ length luma.now) × (x0 ≤ 65535) × (length cells.old ≤ 32) }
    ensures { cells.new ≡ laid (grey_cell luma.now 0 (length luma.now) x0 0) cells.old 0 (length cells.old) }
{
    for (c, cell) in cells.iter_mut().enumerate() {
        *cell = u64::from(in_row(luma, x0 + c));
    }
}

// One row with chroma, each column held to the planes.
fn row_held(luma: &[u16], cb: &[u16], cr: &[u16], x0: usize, by: usize, cells: &mut [u64])
    requires rows { (1 ≤ length luma.now) × (1 ≤ length cb.now) × (length cr.now ≡ length cb.now) }
    requires bounds { (x0 ≤ 65535) × (1 ≤ by) × (by ≤ 2) × (length cells.old ≤ 32) }
    ensures { cells.new ≡ laid (color_cell luma.now cb.now cr.now 0 (length luma.now) 0 (length cb.now) x0 by 0) cells.old 0 (length cells.old) }
{
    for (c, cell) in cells.iter_mut().enumerate() {
        let x = x0 + c;
        let d = down(x, by);
        *cell = entries::pack(in_row(luma, x), in_row(cb, d), in_row(cr, d));
    }
}

// One row with as many columns of chroma, within the planes.
fn row_whole(luma: &[u16], cb: &[u16], cr: &[u16], x0: usize, cells: &mut [u64])
    requires { (x0 + length cells.old ≤ length luma.now) × (x0 + length cells.old ≤ length cb.now) × (length cr.now ≡ length cb.now) × (x0 ≤ 65535) × (length cells.old ≤ 32) }
    ensures { cells.new ≡ laid (color_cell luma.now cb.now cr.now 0 (length luma.now) 0 (length cb.now) x0 1 0) cells.old 0 (length cells.old) }
{
    for (c, cell) in cells.iter_mut().enumerate() {
        *cell = entries::pack(luma[x0 + c], cb[x0 + c], cr[x0 + c]);
    }
}

// One row with half as many columns of chroma, within the planes, from an even column on: two cells at a turn.
fn row_pairs(luma: &[u16], cb: &[u16], cr: &[u16], x0: usize, cells: &mut [u64])
    requires bounds { (x0 + length cells.old ≤ length luma.now) × (x0 + length cells.old ≤ 2 * length cb.now) × (length cr.now ≡ length cb.now) × (x0 ≤ 65535) × (length cells.old ≤ 32) }
    requires even { (x0 % 2 ≡ 0) × (length cells.old % 2 ≡ 0) }
    ensures { cells.new ≡ laid (color_cell luma.now cb.now cr.now 0 (length luma.now) 0 (length cb.now) x0 2 0) cells.old 0 (length cells.old) }
{
    let half = x0 / 2;
    for c in 0..cells.len() / 2 {
        let u = cb[half + c];
        let v = cr[half + c];
        cells[2 * c] = entries::pack(luma[x0 + 2 * c], u, v);
        cells[2 * c + 1] = entries::pack(luma[x0 + 2 * c + 1], u, v);
    }
}

// One row with chroma, a sample of it every `by` columns.
fn row_color(luma: &[u16], cb: &[u16], cr: &[u16], x0: usize, by: usize, cells: &mut [u64])
    requires rows { (1 ≤ length luma.now) × (1 ≤ length cb.now) × (length cr.now ≡ length cb.now) }
    requires bounds { (x0 ≤ 65535) × (1 ≤ by) × (by ≤ 2) × (length cells.old ≤ 32) }
    ensures { cells.new ≡ laid (color_cell luma.now cb.now cr.now 0 (length luma.now) 0 (length cb.now) x0 by 0) cells.old 0 (length cells.old) }
{
    let end = x0 + cells.len();
    if by == 1 && end <= luma.len() && end <= cb.len() {
        row_whole(luma, cb, cr, x0, cells);
    } else if by == 2 && x0 % 2 == 0 && end % 2 == 0 && end <= luma.len() && end / 2 <= cb.len() {
        row_pairs(luma, cb, cr, x0, cells);
    } else {
        row_held(luma, cb, cr, x0, by, cells);
    }
}

// Columns of luma to one of chroma.
#[tactic(auto, unfolding(model::specs::Domain::sub_w))]
pub fn sub_w(format: u8) -> usize
    ensures { (result ≡ sub_w format) × (1 ≤ result) × (result ≤ 2) }
{
    match format {
        1 | 2 => 2,
        _ => 1,
    }
}

// Rows of luma to one of chroma.
#[tactic(auto, unfolding(model::specs::Domain::sub_h))]
pub fn sub_h(format: u8) -> usize
    ensures { (result ≡ sub_h format) × (1 ≤ result) × (result ≤ 2) }
{
    match format {
        1 => 2,
        _ => 1,
    }
}

// Row y of a plane of w × h, held to the plane.
fn row(plane: &[u16], y: usize, w: usize, h: usize) -> &[u16]
    requires { (1 ≤ h) × (w * h ≤ length plane.now) }
    ensures { (result.now ≡ slice_range plane.now (min y (h - 1) * w) (min y (h - 1) * w + w)) × (length result.now ≡ w) }
{
    let from = y.min(h - 1) * w;
    &plane[from..from + w]
}

// The block without chroma.
fn fetch_grey(luma: &[u16], g: SourceBlock, out: &mut [u64; 1024])
    requires size_bound { (g.size ≤ 32) × (1 ≤ g.yw) × (1 ≤ g.yh) × (g.x0 ≤ 65535) × (g.y0 ≤ 65535) }
    requires yh_in_bounds { g.yw * g.yh ≤ length luma.now }
    ensures { out.new ≡ laid (luma_cell luma.now g) out.old 0 (g.size * g.size) }
{
    for y in 0..g.size {
        let from = y * g.size;
        let cells = &mut out[from..from + g.size];
        row_grey(row(luma, g.y0 + y, g.yw, g.yh), g.x0, cells);
    }
}

// The block with chroma.
fn fetch_color(
    luma: &[u16],
    cb: &[u16],
    cr: &[u16],
    format: u8,
    g: SourceBlock,
    out: &mut [u64; 1024],
)
    requires size_bound { (g.size ≤ 32) × (1 ≤ g.yw) × (1 ≤ g.yh) × (g.x0 ≤ 65535) × (g.y0 ≤ 65535) × (g.yw * g.yh ≤ length luma.now) }
    requires le_format { (1 ≤ format) × (1 ≤ g.cw) × (1 ≤ g.chh) × (g.cw * g.chh ≤ length cb.now) × (g.cw * g.chh ≤ length cr.now) }
    ensures { out.new ≡ laid (cell_at luma.now cb.now cr.now format g) out.old 0 (g.size * g.size) }
{
    let across = sub_w(format);
    let along = sub_h(format);
    for y in 0..g.size {
        let d = down(g.y0 + y, along);
        let y_row = row(luma, g.y0 + y, g.yw, g.yh);
        let cb_row = row(cb, d, g.cw, g.chh);
        let cr_row = row(cr, d, g.cw, g.chh);
        let from = y * g.size;
        let cells = &mut out[from..from + g.size];
        row_color(y_row, cb_row, cr_row, g.x0, across, cells);
    }
}

// Whether there is chroma to read.
fn has_chroma(format: u8, cw: usize, ch: usize) -> bool
    ensures { result ≡ has_chroma format cw ch }
{
    (format != 0) & (cw != 0) & (ch != 0)
}

// The colours of the block's cells; what lies past them stays.
pub fn fetch(
    luma: &[u16],
    cb: &[u16],
    cr: &[u16],
    format: u8,
    g: SourceBlock,
    out: &mut [u64; 1024],
)
    requires { (source_in format g ≡ true) × (planes_in format g (length luma.now) (length cb.now) (length cr.now) ≡ true) }
    ensures { out.new ≡ laid (cell_at luma.now cb.now cr.now format g) out.old 0 (g.size * g.size) }
{
    if has_chroma(format, g.cw, g.chh) {
        fetch_color(luma, cb, cr, format, g, out);
    } else {
        fetch_grey(luma, g, out);
    }
}
