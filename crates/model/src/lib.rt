// The records that the calls take and give.
#![tactic(auto)]

// A palette entry: luma and two chroma components.
#[derive(Clone, Copy, PartialEq, Eq)]
pub struct Color {
    pub y: u16,
    pub cb: u16,
    pub cr: u16,
}

// The escape levels of a cell.
#[derive(Clone, Copy, PartialEq, Eq)]
pub struct Levels {
    pub y: u16,
    pub cb: u16,
    pub cr: u16,
}

// What is fixed for a picture: component count, format, depths, QPs, lossless or not.
#[derive(Clone, Copy, PartialEq, Eq)]
pub struct PaletteConfig {
    pub num_comps: usize,
    pub chroma_idc: u8,
    pub bd_luma: u8,
    pub bd_chroma: u8,
    pub qp_y: i32,
    pub qp_cb: i32,
    pub qp_cr: i32,
    pub lossless: bool,
}

// The sides of the planes, and where the block lies in the picture.
#[derive(Clone, Copy, PartialEq, Eq)]
pub struct SourceBlock {
    pub yw: usize,
    pub yh: usize,
    pub cw: usize,
    pub chh: usize,
    pub x0: usize,
    pub y0: usize,
    pub size: usize,
}

// One palette block: cells stand in scan order, and index palette_size marks an escape.
#[derive(Clone, Copy)]
pub struct PaletteCu {
    pub size: usize,
    pub chroma_idc: u8,
    pub bd_luma: u8,
    pub bd_chroma: u8,
    pub lossless: bool,
    pub palette: [Color; 64],
    pub palette_size: usize,
    pub reused: [bool; 128],
    pub pred_size: usize,
    pub num_signaled: usize,
    pub escape_present: bool,
    pub transpose: bool,
    pub indices: [u8; 1024],
    pub escapes: [Levels; 1024],
    pub sse: u64,
    pub tolerance: u64,
}

// The palette predictor: its first `size` entries.
#[derive(Clone, Copy)]
pub struct PalettePredictor {
    pub entries: [Color; 128],
    pub size: usize,
}

// A run along the scan: copy-above or not, index sent, length - 1, start.
#[derive(Clone, Copy, PartialEq, Eq)]
pub struct PaletteRun {
    pub above: bool,
    pub sent: u32,
    pub more: u32,
    pub start: u32,
}
