// Smoothing of a block's index map, after the refusals.
#![tactic(auto)]

ghost use Rattle.std.specs.Prelude.{◌≡◌, true, ℕ, ◌≤◌, Ok};
ghost use Rattle.model.specs.Domain.{config_in};
ghost use Rattle.figure.specs.Laws.{in_rows};
ghost use Rattle.smooth.specs.Smooth as D;
ghost use Rattle.smoothblock.specs.Block.{mapped, answer, as_smoothed};

use entries::pack_palette;
use figure::unroll;
use model::{PaletteConfig, PaletteCu};
use smooth::Scene;
use smoothruns::smooth;
use sse::block_figure;

// Whether a run was moved, and the block made.
#[derive(Clone, Copy)]
pub struct SmoothedBlock {
    pub changed: bool,
    pub cu: PaletteCu,
}

// A block with an index map; where a run was moved, the error figure anew.
fn with_map(
    c: PaletteConfig,
    cu: PaletteCu,
    cells: &[u64; 1024],
    indices: [u8; 1024],
    changed: bool,
) -> PaletteCu
    requires { (config_in c ≡ true) × (cu.size ≤ 32) }
    ensures { result ≡ mapped c cu (in_rows cu.size cells.now) (D.map indices changed) }
{
    let mut out = cu;
    out.indices = indices;
    if changed {
        out.sse = block_figure(c, out, cells);
    }
    out
}

// A block smoothed, from samples row by row.
pub fn smooth_block(
    c: PaletteConfig,
    budget: f32,
    cu: PaletteCu,
    cells: &[u64; 1024],
) -> SmoothedBlock
    requires { (config_in c ≡ true) × (1 ≤ cu.size) × (cu.size ≤ 32) × (cu.palette_size ≤ 64) }
    ensures { as_smoothed cu (Ok result) ≡ answer c budget cu (in_rows cu.size cells.now) }
{
    let palette = pack_palette(cu.palette);
    let mut scan = [0; 1024];
    unroll(cells, false, cu.size, &mut scan);
    let scene = Scene {
        cells: &scan,
        palette: &palette,
        size: cu.size,
        format: cu.chroma_idc,
        escape: cu.palette_size as u8,
        tolerance: cu.tolerance,
        budget,
    };
    let mut indices = cu.indices;
    let changed = smooth(&scene, &mut indices);
    let out = with_map(c, cu, cells, indices, changed);
    SmoothedBlock { changed, cu: out }
}
