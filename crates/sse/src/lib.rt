// The error figure of a block.
#![tactic(auto)]

ghost use Rattle.std.specs.Prelude.{◌≡◌, true, ◌≤◌};
ghost use Rattle.model.specs.Domain.{config_in};
ghost use Rattle.levels.specs.Levels.{scale_of};
ghost use Rattle.figure.specs.Figure.{block_figure};
ghost use Rattle.figure.specs.Laws.{in_rows};
ghost use Rattle.sse.specs.Sse.{as_figure, block_in, sse_of};

use extent::area;
use model::{PaletteConfig, PaletteCu, SourceBlock};
use refusal::Refusal;

// The error figure of a block against samples row by row.
pub fn block_figure(c: PaletteConfig, cu: PaletteCu, cells: &[u64; 1024]) -> u64
    requires { (config_in c ≡ true) × (cu.size ≤ 32) }
    ensures { result ≡ block_figure (scale_of c) cu (in_rows cu.size cells.now) }
{
    let s = levels::scale_of(c);
    let palette = entries::pack_palette(cu.palette);
    let indices = cu.indices;
    let escapes = cu.escapes;
    let n = area(cu.size);
    let mut values = [0; 1024];
    levels::values(
        s,
        &palette,
        cu.palette_size,
        &indices,
        escapes,
        n,
        &mut values,
    );
    figure::error_figure(&values, cells, cu.size, cu.chroma_idc, cu.transpose)
}

// Whether a block holds together and is the call's.
#[tactic(auto, unfolding(crate::specs::Sse::block_in, model::specs::Whole::matches_size))]
pub fn block_in(c: PaletteConfig, g: SourceBlock, cu: PaletteCu) -> bool
    ensures { result ≡ block_in c g cu }
{
    whole::holds_together(64, cu) & whole::matches(c, cu) & (cu.size == g.size)
}

// The error figure of a block, or a refusal.
pub fn palette_sse(
    luma: &[u16],
    cb: &[u16],
    cr: &[u16],
    c: PaletteConfig,
    g: SourceBlock,
    cu: PaletteCu,
) -> Result<u64, Refusal>
    ensures { as_figure result ≡ sse_of luma.now cb.now cr.now c g cu }
{
    let mut cells = [0; 1024];
    source::fetch_block(luma, cb, cr, c, g, &mut cells)?;
    if !block_in(c, g, cu) {
        return Err(Refusal::Block);
    }
    Ok(block_figure(c, cu, &cells))
}
