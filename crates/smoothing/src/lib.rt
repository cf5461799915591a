// Smoothing of a block's index map.
#![tactic(auto)]

ghost use Rattle.std.specs.Prelude.{◌≡◌};
ghost use Rattle.smoothblock.specs.Block.{as_smoothed};
ghost use Rattle.smoothing.specs.Smoothing.{kind_in, smooth_of};

use model::{PaletteConfig, PaletteCu, SourceBlock};
use refusal::Refusal;
use smoothblock::{SmoothedBlock, smooth_block};
use source::fetch_block;
use sse::block_in;

// Whether a block is neither transposed nor lossless.
#[tactic(auto, unfolding(crate::specs::Smoothing::kind_in))]
fn kind_in(transpose: bool, lossless: bool) -> bool
    ensures { result ≡ kind_in transpose lossless }
{
    !transpose && !lossless
}

// The block with its index map smoothed, and whether a run was moved; or a refusal.
pub fn smooth_indices(
    luma: &[u16],
    cb: &[u16],
    cr: &[u16],
    c: PaletteConfig,
    g: SourceBlock,
    lambda: f32,
    bits_per_run: f32,
    cu: PaletteCu,
) -> Result<SmoothedBlock, Refusal>
    ensures { as_smoothed cu result ≡ smooth_of luma.now cb.now cr.now c g lambda bits_per_run cu }
{
    let mut cells = [0; 1024];
    fetch_block(luma, cb, cr, c, g, &mut cells)?;
    if !block_in(c, g, cu) {
        return Err(Refusal::Block);
    }
    if !kind_in(cu.transpose, cu.lossless) {
        return Err(Refusal::Smoothing);
    }
    Ok(smooth_block(c, lambda * bits_per_run, cu, &cells))
}
