// Reconstruction from the list of numbers that crate flat lays a block out as, for a block that is known to hold together: no record is made.
#![tactic(auto)]

ghost use Rattle.std.specs.Prelude.{◌≡◌, true, not, [], ◌∷◌, ◌+◌, ◌*◌, ◌≤◌, ◌<◌, min, eqb, length, get_or, replicate};
ghost use Rattle.base.specs.Cells.{laid};
ghost use Rattle.base.specs.Tests.{every, up_to};
ghost use Rattle.model.specs.Domain.{config_in};
ghost use Rattle.model.specs.Whole.{matches, matches_size};
ghost use Rattle.levels.specs.Laws.{Fit};
ghost use Rattle.flat.specs.Flat.{number, block_of};
ghost use Rattle.flatready.specs.Ready.{BlockReady};
ghost use Rattle.sse.specs.Sse.{block_in};
ghost use Rattle.targets.specs.Laws.{Ready};
ghost use Rattle.refusal.specs.Refusal.{code_of};
ghost use Rattle.recon.specs.Recon.{cell_color, luma_after, chroma_after, recon_of};
ghost use Rattle.flatrecon.specs.Cells.{Indexed, entry_of, value_of};

use flat::byte;
use levels::Scale;
use model::{Levels, PaletteConfig, SourceBlock};
use onto::put_plane;
use recon::{block_rows, chroma_onto, luma_onto, put_chroma};
use refusal::Refusal;
use targets::check_targets;

// Entry k of the palette, as one number.
fn entry_at(list: &[u16], k: usize) -> u64
    requires { (4432 ≤ length list.now) × (k < 64) }
    ensures { result ≡ entry_of list.now k }
{
    let p = 16 + 3 * k;
    entries::pack(list[p], list[p + 1], list[p + 2])
}

// The first n entries.
fn entries_in(list: &[u16], n: usize) -> [u64; 64]
    requires { (4432 ≤ length list.now) × (n ≤ 64) }
    ensures { (result ≡ laid (entry_of list.now) (replicate 64 0) 0 n) × (length result ≡ 64) }
{
    let mut out = [0; 64];
    for k in 0..n {
        out[k] = entry_at(list, k);
    }
    out
}

// The entries of n cells from cell i on, none of which escapes.
fn paint(palette: &[u64; 64], list: &[u16], i: usize, n: usize, out: &mut [u64])
    requires { (4432 ≤ length list.now) × (length palette.now ≡ 64) × (i + n ≤ 1024) × (i + n ≤ length out.old) × Indexed list.now i n 63 }
    ensures { out.new ≡ laid (λ j. get_or palette.now (number list.now (336 + j)) 0) out.old i n }
{
    for j in i..i + n {
        out[j] = palette[usize::from(list[336 + j])];
    }
}

// Whether none of 16 cells from cell i on has index p.
fn quiet(list: &[u16], i: usize, p: u16) -> bool
    requires { (4432 ≤ length list.now) × (i + 16 ≤ 1024) }
    ensures { result ≡ up_to 16 (λ k. not (eqb (number list.now (336 + (i + k))) p)) }
{
    let mut ok = true;
    for x in &list[336 + i..352 + i] {
        ok = ok & (*x != p);
    }
    ok
}

// What cell i decodes to: its entry, or where its index is p its levels.
#[tactic(auto, unfolding(levels::specs::Levels::value_at, flat::specs::Flat::levels_at))]
fn value(s: Scale, palette: &[u64; 64], list: &[u16], p: u16, i: usize) -> u64
    requires { Fit s × (4432 ≤ length list.now) × (length palette.now ≡ 64) × (i < 1024) }
    ensures { result ≡ value_of s palette.now list.now p i }
{
    let x = list[336 + i];
    if x == p {
        let a = 1360 + 3 * i;
        let l = Levels {
            y: list[a],
            cb: list[a + 1],
            cr: list[a + 2],
        };
        levels::values_of(s, l)
    } else {
        levels::entry(palette, usize::from(x))
    }
}

// What n cells from cell i on decode to.
fn decode(s: Scale, palette: &[u64; 64], list: &[u16], p: u16, i: usize, n: usize, out: &mut [u64])
    requires { Fit s × (4432 ≤ length list.now) × (length palette.now ≡ 64) × (i + n ≤ 1024) × (i + n ≤ length out.old) }
    ensures { out.new ≡ laid (value_of s palette.now list.now p) out.old i n }
{
    for j in i..i + n {
        out[j] = value(s, palette, list, p, j);
    }
}

// The same of at most 16 cells, straight from the palette where none escapes.
fn stretch(s: Scale, palette: &[u64; 64], list: &[u16], p: u16, i: usize, n: usize, out: &mut [u64])
    requires { Fit s × (4432 ≤ length list.now) × (length palette.now ≡ 64) × (i + 16 ≤ 1024) × (n ≤ 16) × (i + n ≤ length out.old) × (p ≤ 64) × Indexed list.now i n p }
    ensures { out.new ≡ laid (value_of s palette.now list.now p) out.old i n }
{
    if quiet(list, i, p) {
        paint(palette, list, i, n, out);
    } else {
        decode(s, palette, list, p, i, n, out);
    }
}

// What the first m cells decode to, 16 at a time.
fn values(s: Scale, palette: &[u64; 64], list: &[u16], p: u16, m: usize, out: &mut [u64])
    requires { Fit s × (4432 ≤ length list.now) × (length palette.now ≡ 64) × (m ≤ 1024) × (m ≤ length out.old) × (p ≤ 64) × Indexed list.now 0 m p }
    ensures { out.new ≡ laid (value_of s palette.now list.now p) out.old 0 m }
{
    for g in 0..m.div_ceil(16) {
        let i = 16 * g;
        let n = (m - i).min(16);
        stretch(s, palette, list, p, i, n, out);
    }
}

// The colours of the first m cells.
fn cell_colors(c: PaletteConfig, list: &[u16], m: usize, out: &mut [u64])
    requires { (config_in c ≡ true) × BlockReady list.now × (m ≤ number list.now 0 * number list.now 0) × (m ≤ length out.old) }
    ensures { out.new ≡ laid (cell_color c (block_of list.now)) out.old 0 m }
{
    let p = list[5];
    let palette = entries_in(list, usize::from(p));
    if list[8] == 1 {
        let s = levels::scale_of(c);
        values(s, &palette, list, p, m, out);
    } else {
        paint(&palette, list, 0, m, out);
    }
}

// The block onto the planes; only cells of rows that lie in them are decoded, onto a list lent for them.
fn put_list(
    luma: &mut [u16],
    cb: &mut [u16],
    cr: &mut [u16],
    ys: usize,
    cs: usize,
    c: PaletteConfig,
    g: SourceBlock,
    block: &[u16],
    cells: &mut [u64],
)
    requires { Ready c g ys cs (length luma.old) (length cb.old) (length cr.old) × BlockReady block.now × (block_in c g (block_of block.now) ≡ true) × (number block.now 0 * number block.now 0 ≤ length cells.old) }
    ensures { (luma.new ≡ luma_after ys c g (block_of block.now) luma.old)
        × (cb.new ≡ chroma_after cs c g (block_of block.now) 1 cb.old)
        × (cr.new ≡ chroma_after cs c g (block_of block.now) 2 cr.old) }
{
    let size = usize::from(block[0]);
    let turned = block[9] == 1;
    let format = byte(block[1]);
    let l = luma_onto(ys, g, size, turned);
    let b = chroma_onto(cs, format, g, size, turned, 1);
    let r = chroma_onto(cs, format, g, size, turned, 2);
    let n = block_rows(format, l, b);
    cell_colors(c, block, n * size, cells);
    put_plane(luma, cells, l);
    put_chroma(format, cb, cr, cells, b, r);
}

// The same with no more cells cleared than blocks of 8, 16 or 32 have.
fn put_block(
    luma: &mut [u16],
    cb: &mut [u16],
    cr: &mut [u16],
    ys: usize,
    cs: usize,
    c: PaletteConfig,
    g: SourceBlock,
    block: &[u16],
)
    requires { Ready c g ys cs (length luma.old) (length cb.old) (length cr.old) × BlockReady block.now × (block_in c g (block_of block.now) ≡ true) }
    ensures { (luma.new ≡ luma_after ys c g (block_of block.now) luma.old)
        × (cb.new ≡ chroma_after cs c g (block_of block.now) 1 cb.old)
        × (cr.new ≡ chroma_after cs c g (block_of block.now) 2 cr.old) }
{
    match block[0] {
        0..=8 => put_list(luma, cb, cr, ys, cs, c, g, block, &mut [0; 64]),
        9..=16 => put_list(luma, cb, cr, ys, cs, c, g, block, &mut [0; 256]),
        _ => put_list(luma, cb, cr, ys, cs, c, g, block, &mut [0; 1024]),
    }
}

// Whether a block's format, depths, lossless flag and size are the call's.
fn matches_call(c: PaletteConfig, g: SourceBlock, block: &[u16]) -> bool
    requires { 4432 ≤ length block.now }
    ensures { result ≡ every (matches c (block_of block.now) ∷ matches_size g.size (block_of block.now) ∷ []) }
{
    let format = byte(block[1]);
    let luma = byte(block[2]);
    let chroma = byte(block[3]);
    let lossless = block[4] == 1;
    (format == c.chroma_idc)
        & (luma == c.bd_luma)
        & (chroma == c.bd_chroma)
        & (lossless == c.lossless)
        & (usize::from(block[0]) == g.size)
}

// The block on the planes, or a refusal that leaves them; ys and cs are their strides.
pub fn reconstruct_list(
    luma: &mut [u16],
    cb: &mut [u16],
    cr: &mut [u16],
    ys: usize,
    cs: usize,
    c: PaletteConfig,
    g: SourceBlock,
    block: &[u16],
) -> Result<(), Refusal>
    requires { BlockReady block.now }
    ensures { (code_of result, luma.new, cb.new, cr.new) ≡ recon_of luma.old cb.old cr.old ys cs c g (block_of block.now) }
{
    check_targets(c, g, ys, cs, luma.len(), cb.len(), cr.len())?;
    if !matches_call(c, g, block) {
        return Err(Refusal::Block);
    }
    put_block(luma, cb, cr, ys, cs, c, g, block);
    Ok(())
}
