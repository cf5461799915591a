// What the writer and the reader of runs share: the reference of an index run, the alphabet of an index, and when a run is the last.
#![tactic(auto)]

ghost use Rattle.std.specs.Prelude.{◌≡◌, ◌+◌, ◌≤◌, ◌<◌, eqb};
ghost use Rattle.base.specs.Pick.{pick};
ghost use Rattle.h265.specs.Scan.{above_at};
ghost use Rattle.syntax.specs.Replay.{reference};
ghost use Rattle.syntax.specs.Runs.{is_last};

use scan::place_above;

// The index above a cell; 0 in row 0.
#[tactic(auto, unfolding(h265::specs::Scan::above_at))]
pub fn above_of(cells: &[u8; 1024], size: usize, i: usize) -> u8
    requires { (1 ≤ size) × (i < 1024) }
    ensures { result ≡ above_at size cells.now i }
{
    if i < size {
        0
    } else {
        cells[place_above(i, size)]
    }
}

// The reference of an index run: after a copy-above run the cell above, else the cell before.
#[tactic(auto, unfolding(syntax::specs::Replay::reference))]
pub fn reference_of(cells: &[u8; 1024], size: usize, prev: bool, scan: usize) -> u8
    requires { (1 ≤ size) × (1 ≤ scan) × (scan < 1024) }
    ensures { result ≡ reference size prev cells.now scan }
{
    if prev {
        above_of(cells, size, scan)
    } else {
        cells[scan - 1]
    }
}

// Whether a run goes to the block's end, so that its length is not sent.
pub fn is_last(left: u32, fin: bool, above: bool) -> bool
    ensures { result ≡ is_last left fin above }
{
    left == 0 && above == fin
}

// The index runs so far, after one more run.
pub fn used_after(used: u32, above: bool) -> u32
    requires { used ≤ 1024 }
    ensures { result ≡ used + pick above 0 1 }
{
    used + !above as u32
}

// The alphabet of index number k, where the greatest index is m.
pub fn alphabet(m: u32, k: u32) -> u32
    requires { m ≤ 64 }
    ensures { (result ≡ pick (eqb k 0) (m + 1) m) × (m ≤ result) × (result ≤ 65) }
{
    if k == 0 { m + 1 } else { m }
}

// The place after a run.
pub fn end_of(scan: usize, more: u32) -> usize
    requires { scan ≤ 1024 }
    ensures { result ≡ scan + more + 1 }
{
    scan + more as usize + 1
}
