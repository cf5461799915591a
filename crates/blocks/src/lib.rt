// New blocks, and predictors and palettes between records and packed numbers.
#![tactic(auto)]

ghost use Rattle.std.specs.Prelude.{◌≡◌, map, ◌≤◌};
ghost use Rattle.entries.specs.Entries.{packed_of};
ghost use Rattle.model.specs.Blank.{blank_cu};
ghost use Rattle.blocks.specs.Blocks.{color_of};
ghost use Rattle.blocks.specs.Laws.{block_with};

use choose::Painting;
use model::{Color, Levels, PaletteConfig, PaletteCu};

// The entries of a predictor as numbers.
pub fn pack_predictor(colors: [Color; 128]) -> [u64; 128]
    ensures { result ≡ map packed_of colors }
{
    let mut out: [u64; 128] = [0; 128];
    for i in 0..128 {
        let c = colors[i];
        out[i] = entries::pack(c.y, c.cb, c.cr);
    }
    out
}

// A number as a colour.
#[tactic(auto, unfolding(crate::specs::Blocks::color_of))]
fn unpack(x: u64) -> Color
    ensures { result ≡ color_of x }
{
    Color {
        y: (x % 65536) as u16,
        cb: (x / 65536 % 65536) as u16,
        cr: (x / 4294967296 % 65536) as u16,
    }
}

// Numbers as the entries of a palette.
fn unpack_palette(palette: [u64; 64]) -> [Color; 64]
    ensures { result ≡ map color_of palette }
{
    let mut out = [Color { y: 0, cb: 0, cr: 0 }; 64];
    for i in 0..64 {
        out[i] = unpack(palette[i]);
    }
    out
}

// The blank block: all 0 or off.
#[tactic(auto, unfolding(model::specs::Blank::blank_cu))]
pub fn blank() -> PaletteCu
    ensures { result ≡ blank_cu }
{
    PaletteCu {
        size: 0,
        chroma_idc: 0,
        bd_luma: 0,
        bd_chroma: 0,
        lossless: false,
        palette: [Color { y: 0, cb: 0, cr: 0 }; 64],
        palette_size: 0,
        reused: [false; 128],
        pred_size: 0,
        num_signaled: 0,
        escape_present: false,
        transpose: false,
        indices: [0; 1024],
        escapes: [Levels { y: 0, cb: 0, cr: 0 }; 1024],
        sse: 0,
        tolerance: 0,
    }
}

// The block with a palette; what analysis does not set is 0 or off.
pub fn made(c: PaletteConfig, size: usize, predictors: usize, tol: u64, w: Painting) -> PaletteCu
    requires { w.reused ≤ w.size }
    ensures { result ≡ block_with c size predictors tol w }
{
    let palette = unpack_palette(w.palette);
    let reused = w.flags;
    PaletteCu {
        size,
        chroma_idc: c.chroma_idc,
        bd_luma: c.bd_luma,
        bd_chroma: c.bd_chroma,
        lossless: c.lossless,
        palette,
        palette_size: w.size,
        reused,
        pred_size: predictors,
        num_signaled: w.size - w.reused,
        escape_present: false,
        transpose: false,
        indices: [0; 1024],
        escapes: [Levels { y: 0, cb: 0, cr: 0 }; 1024],
        sse: 0,
        tolerance: tol,
    }
}
