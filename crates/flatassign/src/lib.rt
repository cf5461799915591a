// Assignment in the list of numbers that a block is, where the list is whole.
#![tactic(auto)]

ghost use Rattle.std.specs.Prelude.{◌≡◌, true, ℕ, ◌*◌, ◌<◌, ◌≤◌, eqb, length, get_or};
ghost use Rattle.base.specs.Cells.{laid};
ghost use Rattle.base.specs.Pick.{pick};
ghost use Rattle.assigning.specs.Assigning.{assign_of};
ghost use Rattle.assigning.specs.Laws.{map_of};
ghost use Rattle.figure.specs.Figure.{figure_of};
ghost use Rattle.figure.specs.Laws.{in_rows};
ghost use Rattle.flat.specs.Flat.{block_of};
ghost use Rattle.levels.specs.Laws.{Fit, Small};
ghost use Rattle.levels.specs.Levels.{levels_of};
ghost use Rattle.model.specs.Domain.{config_in};
ghost use Rattle.refusal.specs.Refusal.{code_of};
ghost use Rattle.flatassign.specs.Places.{three_at, with_levels};
ghost use Rattle.flatassign.specs.Filling.{cleared, cell_levels, cell_value, Fills};
ghost use Rattle.flatassign.specs.Answers.{assign_laid};

use extent::area;
use levels::Scale;
use model::{Levels, PaletteConfig, PaletteCu, SourceBlock};
use refusal::Refusal;

// The levels of cell i.
fn put_levels(list: &mut [u16], i: usize, l: Levels)
    requires { (4432 ≤ length list.old) × (i < 1024) }
    ensures { list.new ≡ three_at list.old i l }
{
    list[1360 + 3 * i] = l.y;
    list[1360 + 3 * i + 1] = l.cb;
    list[1360 + 3 * i + 2] = l.cr;
}

// The first m cells without levels.
fn clear_levels(list: &mut [u16], m: usize)
    requires { (4432 ≤ length list.old) × (m ≤ 1024) }
    ensures { list.new ≡ with_levels list.old (cleared m (block_of list.old).escapes) }
{
    for i in 0..m {
        put_levels(list, i, Levels { y: 0, cb: 0, cr: 0 });
    }
}

// The cells of a block: the scale of their escapes, the palette and its size n, and each cell's index and colour.
#[derive(Drop)]
struct Filling<'a> {
    s: Scale,
    palette: &'a [u64; 64],
    n: usize,
    indices: &'a [u8; 1024],
    scan: &'a [u64; 1024],
}

impl Filling<'_> {
    // What cell i decodes to; its levels, where it is an escape.
    fn cell(&self, i: usize, list: &mut [u16]) -> u64
        requires { Fit self.now.s × Small (get_or self.now.scan.now i 0) × (length self.now.palette.now ≡ 64) × (4432 ≤ length list.old) × (i < 1024) }
        ensures { (result ≡ cell_value self.now.s self.now.palette.now self.now.n self.now.indices.now self.now.scan.now i)
            × (list.new ≡ pick (eqb (get_or self.now.indices.now i 0) self.now.n) (three_at list.old i (levels_of self.now.s (get_or self.now.scan.now i 0))) list.old) }
    {
        let at = usize::from(self.indices[i]);
        if at == self.n {
            let l = levels::levels_of(self.s, self.scan[i]);
            put_levels(list, i, l);
            return levels::values_of(self.s, l);
        }
        levels::entry(self.palette, at)
    }

    // What the first m cells decode to, and the levels of their escapes.
    fn cells(&self, m: usize, list: &mut [u16], out: &mut [u64; 1024])
        requires { Fit self.now.s × (m ≤ 1024) × (length self.now.palette.now ≡ 64) × (4432 ≤ length list.old) × ((j : ℕ) → j < m → Small (get_or self.now.scan.now j 0)) }
        ensures { Fills self.now.s self.now.palette.now self.now.n self.now.indices.now self.now.scan.now m list.old m list.new
            × (out.new ≡ laid (cell_value self.now.s self.now.palette.now self.now.n self.now.indices.now self.now.scan.now) out.old 0 m) }
    {
        for i in 0..m {
            out[i] = self.cell(i, list);
        }
    }

    // The levels of a block's cells in its list; the error figure against samples row by row.
    fn fill(
        &self,
        transpose: bool,
        size: usize,
        format: u8,
        cells: &[u64; 1024],
        list: &mut [u16],
    ) -> u64
        requires { Fit self.now.s × (size ≤ 32) × (length self.now.palette.now ≡ 64) × (4432 ≤ length list.old) × ((j : ℕ) → j < size * size → Small (get_or self.now.scan.now j 0)) }
        ensures { (list.new ≡ with_levels list.old (laid (cell_levels self.now.s self.now.palette.now self.now.n self.now.indices.now self.now.scan.now) (block_of list.old).escapes 0 (size * size)))
            × (result ≡ figure_of format transpose size (cell_value self.now.s self.now.palette.now self.now.n self.now.indices.now self.now.scan.now) (in_rows size cells.now)) }
    {
        let m = area(size);
        clear_levels(list, m);
        let mut values = [0; 1024];
        self.cells(m, list, &mut values);
        figure::error_figure(&values, cells, size, format, transpose)
    }
}

// A block's assignment to its palette in its list, from samples row by row; refused where too many cells escape.
fn map_list(
    c: PaletteConfig,
    transpose: bool,
    cu: PaletteCu,
    cells: &[u64; 1024],
    list: &mut [u16],
) -> Result<(), Refusal>
    requires c_value { (config_in c ≡ true) × (cu.size ≤ 32) × (1 ≤ cu.palette_size) × (cu.palette_size ≤ 64) × (4432 ≤ length list.old) × (cu ≡ block_of list.old) }
    requires by_index { (j : ℕ) → j < cu.size * cu.size → Small (get_or cells.now j 0) }
    ensures { (code_of result, list.new) ≡ assign_laid (map_of c transpose cu (in_rows cu.size cells.now)) list.old }
{
    let n = area(cu.size);
    let palette = entries::pack_palette(cu.palette);
    let mut scan = [0; 1024];
    figure::unroll(cells, transpose, cu.size, &mut scan);
    let mut indices = cu.indices;
    let e = assign::assign(
        &scan,
        n,
        &palette,
        cu.palette_size,
        cu.tolerance,
        &mut indices,
    );
    if n < e * 4 {
        return Err(Refusal::TooManyEscapes);
    }
    let filling = Filling {
        s: levels::scale_of(c),
        palette: &palette,
        n: cu.palette_size,
        indices: &indices,
        scan: &scan,
    };
    let sse = filling.fill(transpose, cu.size, cu.chroma_idc, cells, list);
    // Stays field by field: a struct update makes a block and copies it, which was slower.
    let mut after = cu;
    after.escape_present = e != 0;
    after.transpose = transpose;
    after.indices = indices;
    after.sse = sse;
    layflat::lay_front(after, list);
    Ok(())
}

// The list of the block with its cells assigned to its palette; the list is the block's, whole, and stays as it came where the call is refused.
pub fn assign_list(
    luma: &[u16],
    cb: &[u16],
    cr: &[u16],
    c: PaletteConfig,
    g: SourceBlock,
    transpose: bool,
    cu: PaletteCu,
    list: &mut [u16],
) -> Result<(), Refusal>
    requires { (4432 ≤ length list.old) × (cu ≡ block_of list.old) }
    ensures { (code_of result, list.new) ≡ assign_laid (assign_of luma.now cb.now cr.now c g transpose cu) list.old }
{
    let mut cells = [0; 1024];
    source::fetch_block(luma, cb, cr, c, g, &mut cells)?;
    if !assigning::block_in(c, g, cu) {
        return Err(Refusal::Block);
    }
    map_list(c, transpose, cu, &cells, list)
}
