// Smoothing an index map: what recolouring one cell costs, over lent arrays along the scan.
#![tactic(auto)]

ghost use Rattle.std.specs.Prelude.{◌≡◌, Bool, true, false, ℕ, ◌<◌, ◌≤◌, pos, length, get_or};
ghost use Rattle.std.specs.Float.{binary32};
ghost use Rattle.std.specs.Float.Ieee.{of_int};
ghost use Rattle.h265.specs.Scan as S;
ghost use Rattle.figure.specs.Figure.{chroma_in};
ghost use Rattle.smooth.specs.Smooth as D;

use scan::{place_above, scan_pos};

// What smoothing does not change: a block's samples along the scan and its palette, its size and format, the escape index, the tolerance and the budget of a run.
#[derive(Clone, Copy)]
pub struct Scene<'a> {
    pub cells: &'a [u64; 1024],
    pub palette: &'a [u64; 64],
    pub size: usize,
    pub format: u8,
    pub escape: u8,
    pub tolerance: u64,
    pub budget: f32,
}

// A component as f32.
fn as_f32(x: u64) -> f32
    requires { x < 65536 }
    ensures { result ≡ of_int binary32 (pos x) }
{
    f32::from(x as u16)
}

// The square of a difference, in f32.
#[tactic(auto, unfolding(crate::specs::Smooth::squared))]
fn squared(a: u64, b: u64) -> f32
    requires { (a < 65536) × (b < 65536) }
    ensures { result ≡ D.squared a b }
{
    let d = as_f32(a) - as_f32(b);
    d * d
}

// The squared error of coding a sample as an entry.
#[tactic(auto, unfolding(crate::specs::Smooth::entry_error))]
fn entry_error(chroma: bool, entry: u64, sample: u64) -> f32
    ensures { result ≡ D.entry_error chroma entry sample }
{
    let y = squared(entry % 65536, sample % 65536);
    if chroma {
        let u = squared(entry / 65536 % 65536, sample / 65536 % 65536);
        let v = squared(entry / 4294967296 % 65536, sample / 4294967296 % 65536);
        y + u + v
    } else {
        y
    }
}

// Whether a chroma sample is written at place i.
fn chroma_at(format: u8, size: usize, i: usize) -> bool
    requires { 1 ≤ size }
    ensures { result ≡ chroma_in format false (S.col_of size i) (S.row_of size i) }
{
    if format == 0 {
        return false;
    }
    if 2 < format {
        return true;
    }
    let p = scan_pos(i, size);
    if format == 2 {
        return p.col % 2 == 0;
    }
    (p.col % 2 == 0) & (p.row % 2 == 0)
}

// The index above place i.
#[tactic(auto, using(crate::specs::Laws::above_is))]
pub fn above(indices: &[u8; 1024], size: usize, i: usize) -> u8
    requires { (1 ≤ size) × (size ≤ i) × (i < 1024) }
    ensures { result ≡ S.above_at size indices.now i }
{
    indices[place_above(i, size)]
}

impl Scene<'_> {
    // What recolouring place i from one entry to another adds.
    #[tactic(auto, unfolding(crate::specs::Smooth::delta))]
    pub fn delta(&self, from: u64, to: u64, i: usize) -> f32
        requires { (1 ≤ self.now.size) × (i < 1024) }
        ensures { result ≡ D.delta self.now.format self.now.size self.now.cells.now from to i }
    {
        let chroma = chroma_at(self.format, self.size, i);
        let sample = self.cells[i];
        entry_error(chroma, to, sample) - entry_error(chroma, from, sample)
    }

    // The colour of an index; 0 past the palette.
    pub fn colour(&self, v: u8) -> u64
        requires { length self.now.palette.now ≡ 64 }
        ensures { result ≡ get_or self.now.palette.now v 0 }
    {
        let palette = self.palette;
        palette.get(usize::from(v)).copied().unwrap_or(0)
    }

    // Whether the index above place i is no escape, and is the run's value or fits.
    #[tactic(auto, unfolding(crate::specs::Smooth::above_fits, crate::specs::Smooth::fits))]
    pub fn above_fits(&self, indices: &[u8; 1024], value: u8, i: usize) -> bool
        requires { (1 ≤ self.now.size) × (self.now.size ≤ i) × (i < 1024) × (length self.now.palette.now ≡ 64) }
        ensures { result ≡ D.above_fits self.now.size self.now.escape self.now.tolerance self.now.palette.now self.now.cells.now indices.now value i }
    {
        let above = above(indices, self.size, i);
        if above == self.escape {
            return false;
        }
        above == value || quant::distance(self.colour(above), self.cells[i]) <= self.tolerance
    }
}
