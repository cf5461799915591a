// The reconstruction of a block onto lent planes.
#![tactic(auto)]

ghost use Rattle.std.specs.Prelude.{◌≡◌, true, not, ◌*◌, ◌/◌, ◌≤◌, max, eqb, length, get_or};
ghost use Rattle.base.specs.Pick.{pick};
ghost use Rattle.base.specs.Cells.{laid};
ghost use Rattle.base.specs.Tests.{up_to};
ghost use Rattle.model.specs.Domain.{config_in};
ghost use Rattle.sse.specs.Sse.{block_in};
ghost use Rattle.onto.specs.Onto.{after};
ghost use Rattle.onto.specs.Laws.{Apt, from_cells, scan_rows};
ghost use Rattle.targets.specs.Laws.{Ready};
ghost use Rattle.refusal.specs.Refusal.{code_of};
ghost use Rattle.recon.specs.Recon.{cell_color, luma_onto, chroma_onto, luma_after, chroma_after, recon_of};
ghost use Rattle.recon.specs.Laws.{Sized};

use entries::pack_palette;
use model::{PaletteConfig, PaletteCu, SourceBlock};
use onto::{Onto, put_plane};
use refusal::Refusal;
use samples::{sub_h, sub_w};
use sse::block_in;
use targets::check_targets;

// The block on the luma plane.
pub fn luma_onto(stride: usize, g: SourceBlock, size: usize, transpose: bool) -> Onto
    ensures { result ≡ luma_onto stride g size transpose }
{
    Onto {
        stride,
        height: g.yh,
        ox: g.x0,
        oy: g.y0,
        wide: size,
        high: size,
        across: 1,
        down: 1,
        size,
        transpose,
        comp: 0,
    }
}

// The block on a chroma plane.
pub fn chroma_onto(
    stride: usize,
    format: u8,
    g: SourceBlock,
    size: usize,
    transpose: bool,
    comp: u8,
) -> Onto
    ensures { result ≡ chroma_onto stride format g size transpose comp }
{
    let across = sub_w(format);
    let down = sub_h(format);
    Onto {
        stride,
        height: g.chh,
        ox: g.x0 / across,
        oy: g.y0 / down,
        wide: size / across,
        high: size / down,
        across,
        down,
        size,
        transpose,
        comp,
    }
}

// Rows of the scan with all cells whose samples lie in the planes in use.
pub fn block_rows(format: u8, l: Onto, b: Onto) -> usize
    requires { Sized l × Sized b × (b.size ≡ l.size) }
    ensures { (scan_rows l ≤ result) × (1 ≤ format → scan_rows b ≤ result) × (result ≤ l.size) }
{
    let n = l.scan_rows();
    if format == 0 { n } else { n.max(b.scan_rows()) }
}

// Whether none of the indices is n, an escape.
fn none_escape(indices: &[u8], n: usize) -> bool
    ensures { result ≡ up_to (length indices.now) (λ j. not (eqb (get_or indices.now j 0) n)) }
{
    let mut ok = true;
    for k in indices {
        ok = ok & (usize::from(*k) != n);
    }
    ok
}

// The entries of the first cells, whose indices these are; 0 for an index past the palette.
fn paint(palette: &[u64; 64], indices: &[u8], out: &mut [u64; 1024])
    requires { (length indices.now ≤ 1024) × (length palette.now ≡ 64) }
    ensures { out.new ≡ laid (λ j. get_or palette.now (get_or indices.now j 0) 0) out.old 0 (length indices.now) }
{
    for (i, k) in indices.iter().enumerate() {
        out[i] = palette.get(usize::from(*k)).copied().unwrap_or(0);
    }
}

// The colours of the first m cells.
fn cell_colors(c: PaletteConfig, cu: PaletteCu, m: usize, out: &mut [u64; 1024])
    requires { (config_in c ≡ true) × (m ≤ 1024) }
    ensures { out.new ≡ laid (cell_color c cu) out.old 0 m }
{
    let palette = pack_palette(cu.palette);
    let indices = cu.indices;
    if none_escape(&indices[..m], cu.palette_size) {
        paint(&palette, &indices[..m], out);
        return;
    }
    let s = levels::scale_of(c);
    let escapes = cu.escapes;
    levels::values(s, &palette, cu.palette_size, &indices, escapes, m, out);
}

// The block onto the chroma planes, where there are any.
pub fn put_chroma(format: u8, cb: &mut [u16], cr: &mut [u16], values: &[u64], b: Onto, r: Onto)
    requires { (1 ≤ format → Apt b (length cb.old)) × (1 ≤ format → Apt r (length cr.old)) × (b.size * b.size ≤ length values.now) × (r.size * r.size ≤ length values.now) }
    ensures { (cb.new ≡ pick (eqb format 0) cb.old (after b (from_cells b values.now) cb.old))
        × (cr.new ≡ pick (eqb format 0) cr.old (after r (from_cells r values.now) cr.old)) }
{
    if format == 0 {
        return;
    }
    put_plane(cb, values, b);
    put_plane(cr, values, r);
}

// The block onto the planes; only cells of rows that lie in them are decoded.
fn put_block(
    luma: &mut [u16],
    cb: &mut [u16],
    cr: &mut [u16],
    ys: usize,
    cs: usize,
    c: PaletteConfig,
    g: SourceBlock,
    cu: PaletteCu,
)
    requires { Ready c g ys cs (length luma.old) (length cb.old) (length cr.old) × (block_in c g cu ≡ true) }
    ensures { (luma.new ≡ luma_after ys c g cu luma.old)
        × (cb.new ≡ chroma_after cs c g cu 1 cb.old)
        × (cr.new ≡ chroma_after cs c g cu 2 cr.old) }
{
    let l = luma_onto(ys, g, cu.size, cu.transpose);
    let b = chroma_onto(cs, cu.chroma_idc, g, cu.size, cu.transpose, 1);
    let r = chroma_onto(cs, cu.chroma_idc, g, cu.size, cu.transpose, 2);
    let n = block_rows(cu.chroma_idc, l, b);
    let mut values: [u64; 1024] = [0; 1024];
    cell_colors(c, cu, n * cu.size, &mut values);
    put_plane(luma, &values, l);
    put_chroma(cu.chroma_idc, cb, cr, &values, b, r);
}

// The block on the planes, or a refusal that leaves them; ys and cs are their strides.
pub fn reconstruct(
    luma: &mut [u16],
    cb: &mut [u16],
    cr: &mut [u16],
    ys: usize,
    cs: usize,
    c: PaletteConfig,
    g: SourceBlock,
    cu: PaletteCu,
) -> Result<(), Refusal>
    ensures { (code_of result, luma.new, cb.new, cr.new) ≡ recon_of luma.old cb.old cr.old ys cs c g cu }
{
    check_targets(c, g, ys, cs, luma.len(), cb.len(), cr.len())?;
    if !block_in(c, g, cu) {
        return Err(Refusal::Block);
    }
    put_block(luma, cb, cr, ys, cs, c, g, cu);
    Ok(())
}
