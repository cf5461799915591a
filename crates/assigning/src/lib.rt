// Assignment of a block's cells to its palette.
#![tactic(auto)]

ghost use Rattle.std.specs.Prelude.{◌≡◌, true, ℕ, ◌*◌, ◌<◌, ◌≤◌, get_or};
ghost use Rattle.base.specs.Cells.{laid};
ghost use Rattle.model.specs.Domain.{config_in};
ghost use Rattle.levels.specs.Laws.{Small};
ghost use Rattle.levels.specs.Levels.{scale_of, levels_at};
ghost use Rattle.figure.specs.Laws.{in_rows};
ghost use Rattle.assigning.specs.Assigning.{with_cells, as_assigned, block_in, assign_of};
ghost use Rattle.assigning.specs.Laws.{map_of};

use extent::area;
use model::{PaletteConfig, PaletteCu, SourceBlock};
use refusal::Refusal;

// A block with the indices of its cells, and the levels of its escapes.
fn with_cells(
    c: PaletteConfig,
    transpose: bool,
    cu: PaletteCu,
    scan: &[u64; 1024],
    indices: [u8; 1024],
    present: bool,
) -> PaletteCu
    requires { (config_in c ≡ true) × (cu.size ≤ 32) × ((j : ℕ) → j < cu.size * cu.size → Small (get_or scan.now j 0)) }
    ensures { result ≡ with_cells cu present transpose indices (laid (λ j. levels_at (scale_of c) cu.palette_size (get_or indices j 0) (get_or scan.now j 0)) cu.escapes 0 (cu.size * cu.size)) }
{
    let s = levels::scale_of(c);
    let n = area(cu.size);
    let escapes = levels::levels(s, cu.palette_size, &indices, scan, n, cu.escapes);
    PaletteCu {
        escape_present: present,
        transpose,
        indices,
        escapes,
        ..cu
    }
}

// A block's assignment to its palette, from samples row by row; refused where too many cells escape.
fn map_block(
    c: PaletteConfig,
    transpose: bool,
    cu: PaletteCu,
    cells: &[u64; 1024],
) -> Result<PaletteCu, Refusal>
    requires c_value { (config_in c ≡ true) × (cu.size ≤ 32) × (1 ≤ cu.palette_size) × (cu.palette_size ≤ 64) }
    requires by_index { (j : ℕ) → j < cu.size * cu.size → Small (get_or cells.now j 0) }
    ensures { as_assigned cu result ≡ map_of c transpose cu (in_rows cu.size cells.now) }
{
    let n = area(cu.size);
    let palette = entries::pack_palette(cu.palette);
    let mut scan = [0; 1024];
    figure::unroll(cells, transpose, cu.size, &mut scan);
    let mut indices = cu.indices;
    let e = assign::assign(
        &scan,
        n,
        &palette,
        cu.palette_size,
        cu.tolerance,
        &mut indices,
    );
    if n < e * 4 {
        return Err(Refusal::TooManyEscapes);
    }
    let mut out = with_cells(c, transpose, cu, &scan, indices, e != 0);
    out.sse = sse::block_figure(c, out, cells);
    Ok(out)
}

// Whether assignment takes a block, which is the call's.
#[tactic(auto, unfolding(crate::specs::Assigning::block_in, model::specs::Whole::matches_size))]
pub fn block_in(c: PaletteConfig, g: SourceBlock, cu: PaletteCu) -> bool
    ensures { result ≡ block_in c g cu }
{
    whole::assignable(64, cu) & whole::matches(c, cu) & (cu.size == g.size)
}

// The block with its cells assigned to its palette, or why it is refused.
pub fn assign_indices(
    luma: &[u16],
    cb: &[u16],
    cr: &[u16],
    c: PaletteConfig,
    g: SourceBlock,
    transpose: bool,
    cu: PaletteCu,
) -> Result<PaletteCu, Refusal>
    ensures { as_assigned cu result ≡ assign_of luma.now cb.now cr.now c g transpose cu }
{
    let mut cells = [0; 1024];
    source::fetch_block(luma, cb, cr, c, g, &mut cells)?;
    if !block_in(c, g, cu) {
        return Err(Refusal::Block);
    }
    map_block(c, transpose, cu, &cells)
}
