// The block that analysis makes, laid in a list of numbers as crate flat has them, without its record.
#![tactic(auto)]

ghost use Rattle.std.specs.Prelude.{◌≡◌, ◌++◌, map, ◌≤◌, min, length, replicate};
ghost use Rattle.std.proofs.lemmas.List.Edits.{sets};
ghost use Rattle.h265.specs.Strings.{bit};
ghost use Rattle.flat.specs.Flat.{short, colors_of, flat_block};
ghost use Rattle.blocks.specs.Blocks.{color_of};
ghost use Rattle.blocks.specs.Laws.{block_with};
ghost use Rattle.flatmade.specs.Front.{front_of, head_with};

use choose::Painting;
use model::PaletteConfig;

// A number held to 16 bits.
fn short(x: usize) -> u16
    ensures { result ≡ short x }
{
    x.min(65535) as u16
}

// The numbers before the palette, 0 after them.
fn head(
    c: PaletteConfig,
    size: usize,
    predictors: usize,
    tol: u64,
    entries: usize,
    signaled: usize,
) -> [u16; 336]
    ensures { result ≡ head_with c size predictors tol entries signaled ++ replicate 320 0 }
{
    let mut out: [u16; 336] = [0; 336];
    out[0] = short(size);
    out[1] = u16::from(c.chroma_idc);
    out[2] = u16::from(c.bd_luma);
    out[3] = u16::from(c.bd_chroma);
    out[4] = c.lossless as u16;
    out[5] = short(entries);
    out[6] = short(predictors);
    out[7] = short(signaled);
    out[10] = short(tol as usize);
    out
}

// The palette, from place 16 on.
fn lay_palette(out: &mut [u16; 336], palette: [u64; 64])
    ensures { out.new ≡ sets out.old 16 (colors_of (map color_of palette)) }
{
    for i in 0..64 {
        let x = palette[i];
        out[16 + 3 * i] = (x % 65536) as u16;
        out[16 + 3 * i + 1] = (x / 65536 % 65536) as u16;
        out[16 + 3 * i + 2] = (x / 4294967296 % 65536) as u16;
    }
}

// The flags, from place 208 on.
fn lay_flags(out: &mut [u16; 336], flags: [bool; 128])
    ensures { out.new ≡ sets out.old 208 (map bit flags) }
{
    for i in 0..128 {
        out[208 + i] = flags[i] as u16;
    }
}

// The numbers before the indices.
fn front(c: PaletteConfig, size: usize, predictors: usize, tol: u64, w: Painting) -> [u16; 336]
    requires { w.reused ≤ w.size }
    ensures { result ≡ front_of (block_with c size predictors tol w) }
{
    let palette = w.palette;
    let flags = w.flags;
    let mut out = head(c, size, predictors, tol, w.size, w.size - w.reused);
    lay_palette(&mut out, palette);
    lay_flags(&mut out, flags);
    out
}

// The first numbers of a block, as far as the list reaches.
fn lay_front(xs: &[u16; 336], list: &mut [u16])
    requires { length xs.now ≡ 336 }
    ensures { list.new ≡ sets list.old 0 xs.now }
{
    for i in 0..list.len().min(336) {
        list[i] = xs[i];
    }
}

// Indices and levels, all 0, as far as the list reaches.
fn lay_cells(list: &mut [u16])
    ensures { list.new ≡ sets list.old 336 (replicate 4096 0) }
{
    for i in 336..list.len().min(4432) {
        list[i] = 0;
    }
}

// The block with a palette, as far as the list reaches.
pub fn lay_made(
    c: PaletteConfig,
    size: usize,
    predictors: usize,
    tol: u64,
    w: Painting,
    list: &mut [u16],
)
    requires { w.reused ≤ w.size }
    ensures { list.new ≡ sets list.old 0 (flat_block (block_with c size predictors tol w)) }
{
    let first = front(c, size, predictors, tol, w);
    lay_front(&first, list);
    lay_cells(list);
}
