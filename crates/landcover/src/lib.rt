// A small land-cover map, in several formats and depths, and the blocks of it that are coded.
#![tactic(auto)]

ghost use Rattle.std.specs.Prelude.{◌≡◌, ◌≤◌, ◌<◌, min, eqb};
ghost use Rattle.base.specs.Pick.{pick};
ghost use Rattle.landcover.specs.Map.{cover_of, cover_at, sample_of, plane_of, depth_of, side_of, settings, listed, spot_of, geometry_of};

// What is fixed for a series of blocks.
#[derive(Clone, Copy)]
pub struct Series {
    pub format: u8,
    pub deep: bool,
    pub lossless: bool,
}

// Where a block lies, and its size.
#[derive(Clone, Copy)]
pub struct Square {
    pub column: u16,
    pub row: u16,
    pub size: u16,
}

// The kind of cover at a column and a row.
#[tactic(auto, unfolding(crate::specs::Map::cover_of))]
fn cover(x: usize, y: usize) -> usize
    requires { (x ≤ 255) × (y ≤ 255) }
    ensures { (result ≡ cover_of x y) × (result ≤ 121) }
{
    if x == (y + y / 2 + 4) % 48 {
        11
    } else if 63 < x + y {
        12 + (7 * x + 11 * y) % 110
    } else {
        (x / 7 + 3 * (y / 5)) % 11
    }
}

// The kind of cover at a place of a plane.
#[tactic(auto, unfolding(crate::specs::Map::cover_at))]
fn cover_at(half: bool, i: usize) -> usize
    requires { i < 1920 }
    ensures { (result ≡ cover_at half i) × (result ≤ 121) }
{
    if half {
        cover(2 * (i % 24), 2 * (i / 24))
    } else {
        cover(i % 48, i / 48)
    }
}

// The sample of a kind of cover.
#[tactic(auto, unfolding(crate::specs::Map::sample_of))]
fn sample(kind: usize, by: u8, deep: bool) -> u16
    requires { kind ≤ 121 }
    ensures { result ≡ sample_of kind by deep }
{
    let v = (kind * usize::from(by) % 251) as u16;
    if deep { 4 * v + 3 } else { v }
}

// A plane of the map.
pub fn plane(half: bool, by: u8, deep: bool) -> [u16; 1920]
    ensures { result ≡ plane_of half by deep }
{
    let mut list = [0; 1920];
    for (i, v) in list.iter_mut().enumerate() {
        *v = sample(cover_at(half, i), by, deep);
    }
    list
}

// A depth.
#[tactic(auto, unfolding(crate::specs::Map::depth_of))]
pub fn depth(deep: bool) -> u8
    ensures { result ≡ depth_of deep }
{
    if deep { 10 } else { 8 }
}

// The components of a format.
fn components(format: u8) -> u8
    ensures { result ≡ pick (eqb format 0) 1 3 }
{
    if format == 0 { 1 } else { 3 }
}

// A chroma side.
#[tactic(auto, unfolding(crate::specs::Map::side_of))]
pub fn side(format: u8, luma: u16) -> u16
    ensures { result ≡ side_of format luma }
{
    match format {
        0 => 0,
        1 => luma / 2,
        _ => luma,
    }
}

// A series' configuration. Stays a list of numbers, as the geometry does: the C interface takes them so (`velomitra_analyze_palette`).
#[tactic(auto, unfolding(crate::specs::Map::settings))]
pub fn config(s: Series) -> [i32; 8]
    ensures { result ≡ settings s.format s.deep s.lossless }
{
    let depth = i32::from(depth(s.deep));
    [
        i32::from(components(s.format)),
        i32::from(s.format),
        depth,
        depth,
        22,
        22,
        22,
        i32::from(s.lossless),
    ]
}

// Column, row and size of the blocks.
const SPOTS: [(u16, u16, u16); 12] = [
    (0, 0, 32),
    (16, 16, 32),
    (16, 0, 16),
    (32, 24, 16),
    (28, 20, 16),
    (4, 6, 16),
    (24, 8, 8),
    (38, 30, 8),
    (0, 32, 8),
    (40, 0, 8),
    (6, 0, 2),
    (20, 10, 2),
];

// The block's column, row and size; zeros past the last.
#[tactic(auto, unfolding(crate::specs::Map::spot_of, crate::specs::Map::columns, crate::specs::Map::rows, crate::specs::Map::sizes))]
pub fn spot(k: usize) -> Square
    ensures { listed result ≡ spot_of k }
{
    let (column, row, size) = SPOTS.get(k).copied().unwrap_or((0, 0, 0));
    Square { column, row, size }
}

// The geometry of a block.
#[tactic(auto, unfolding(crate::specs::Map::geometry_of))]
pub fn geometry(format: u8, at: Square) -> [usize; 7]
    ensures { result ≡ geometry_of format (listed at) }
{
    [
        48,
        40,
        usize::from(side(format, 48)),
        usize::from(side(format, 40)),
        usize::from(at.column),
        usize::from(at.row),
        usize::from(at.size),
    ]
}

// A block's side, held to 32.
pub fn size_of(at: Square) -> usize
    ensures { (result ≡ min at.size 32) × (result ≤ 32) }
{
    usize::from(at.size.min(32))
}
