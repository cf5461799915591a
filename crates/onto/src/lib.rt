// A block laid onto a lent plane.
#![tactic(auto)]

ghost use Rattle.std.specs.Prelude.{◌≡◌, Bool, true, false, ℕ, ◌+◌, ◌-◌, ◌*◌, ◌/◌, ◌%◌, ◌^◌, ◌<◌, ◌≤◌, min, length};
ghost use Rattle.base.specs.Cells.{laid};
ghost use Rattle.onto.specs.Onto.{part_of, cell_of, after};
ghost use Rattle.onto.specs.Laws.{columns, rows, scan_rows, from_cells, Apt, row_start, row_value};

use scan::scan_pos_inv;

// Where a block goes: the plane, the part of it that the block covers, the luma columns and rows to one of it, the block's size and transposition, and the component.
#[derive(Clone, Copy, PartialEq, Eq)]
pub struct Onto {
    pub stride: usize,
    pub height: usize,
    pub ox: usize,
    pub oy: usize,
    pub wide: usize,
    pub high: usize,
    pub across: usize,
    pub down: usize,
    pub size: usize,
    pub transpose: bool,
    pub comp: u8,
}

// Where a component stands in a colour.
#[tactic(auto, unfolding(crate::specs::Onto::part_of))]
fn shift_of(comp: u8) -> u32
    ensures { (result ≤ 32) × ((c : ℕ) → c / 2 ^ result % 65536 ≡ part_of comp c) }
{
    match comp {
        0 => 0,
        1 => 16,
        _ => 32,
    }
}

// One component of a colour.
fn part(comp: u8, c: u64) -> u16
    ensures { result ≡ part_of comp c }
{
    ((c >> shift_of(comp)) % 65536) as u16
}

// The luma columns or rows of a count of them, of at most `most`.
fn luma_of(count: usize, by: usize, most: usize, size: usize) -> usize
    requires { (count ≤ most) × (most * by ≤ size) × (size ≤ 32) }
    ensures { (result ≡ count * by) × (result ≤ size) }
{
    count * by
}

impl Onto {
    // The columns of the block that lie in the plane.
    fn columns(&self) -> usize
        ensures { result ≡ columns self.now }
    {
        self.wide.min(self.stride.saturating_sub(self.ox))
    }

    // The rows of the block that lie in the plane.
    fn rows(&self) -> usize
        ensures { result ≡ rows self.now }
    {
        self.high.min(self.height.saturating_sub(self.oy))
    }

    // The first rows of the scan, those with all cells whose samples lie in the plane.
    pub fn scan_rows(&self) -> usize
        requires { (self.now.size ≤ 32) × (self.now.wide * self.now.across ≤ self.now.size) × (self.now.high * self.now.down ≤ self.now.size) }
        ensures { (result ≡ scan_rows self.now) × (result ≤ self.now.size) }
    {
        if self.transpose {
            luma_of(self.columns(), self.across, self.wide, self.size)
        } else {
            luma_of(self.rows(), self.down, self.high, self.size)
        }
    }

    // The scan place of the cell for column x, row y of the block's luma.
    #[tactic(auto, unfolding(crate::specs::Onto::cell_of), using(h265::specs::ScanLaws::scan_lt))]
    fn cell_at(&self, x: usize, y: usize) -> usize
        requires { (self.now.size ≤ 32) × (x < self.now.size) × (y < self.now.size) }
        ensures { (result ≡ cell_of self.now.transpose self.now.size x y) × (result < self.now.size * self.now.size) }
    {
        if self.transpose {
            scan_pos_inv(y, x, self.size)
        } else {
            scan_pos_inv(x, y, self.size)
        }
    }

    // Where row y of the block starts in a plane of n samples.
    #[tactic(auto, using(crate::specs::Laws::row_end))]
    fn start_at(&self, y: usize, n: usize) -> usize
        requires { Apt self.now n × (y < rows self.now) × (1 ≤ columns self.now) }
        ensures { (result ≡ row_start self.now y) × (result + columns self.now ≤ n) }
    {
        (self.oy + y) * self.stride + self.ox
    }

    // Row y of the block: a sample from every `across` columns of its luma row.
    fn put_row(&self, plane: &mut [u16], values: &[u64], y: usize)
        requires { Apt self.now (length plane.old) × (y < rows self.now) × (1 ≤ columns self.now) × (self.now.size * self.now.size ≤ length values.now) }
        ensures { plane.new ≡ laid (row_value self.now (from_cells self.now values.now) y) plane.old (row_start self.now y) (columns self.now) }
    {
        let at = self.start_at(y, plane.len());
        let count = self.columns();
        for (k, sample) in plane[at..at + count].iter_mut().enumerate() {
            *sample = part(
                self.comp,
                values[self.cell_at(k * self.across, y * self.down)],
            );
        }
    }
}

// The block onto one plane; its cells' colours stand in scan order.
#[tactic(auto, using(crate::specs::Laws::put_beside))]
pub fn put_plane(plane: &mut [u16], values: &[u64], o: Onto)
    requires { Apt o (length plane.old) × (o.size * o.size ≤ length values.now) }
    ensures { plane.new ≡ after o (from_cells o values.now) plane.old }
{
    if o.columns() == 0 {
        return;
    }
    for y in 0..o.rows() {
        o.put_row(plane, values, y);
    }
}
