// Blocks, predictors, configurations and geometries as lists of numbers, for callers that have no records. A list may have any length: a number that is missing reads as 0, and what would lie past the end is not laid.
//
// A block has 4432 numbers. 0 size; 1 format; 2, 3 depths; 4 lossless; 5 palette size; 6 flags; 7 signalled entries; 8 escapes; 9 transposed; 10 tolerance; 11 to 14 error figure, low 16 bits first; 15 none; from 16 the palette, three to an entry; from 208 the flags; from 336 the indices; from 1360 the levels, three to a cell. 1 is on, any other number off.
// A predictor has 385: 0 size; from 1 the entries, three to each.
// A configuration has 8: components, format, two depths, three QPs, lossless.
// A geometry has 7: luma width and height, chroma width and height, the block's column, row and size.
#![tactic(auto)]

ghost use Rattle.std.specs.Prelude.{◌≡◌, false, [], ◌∷◌, map, ◌+◌, ◌*◌, ◌≤◌, min, eqb, length, get_or};
ghost use Rattle.std.proofs.lemmas.List.Edits.{sets};
ghost use Rattle.base.specs.Laid.{Laid};
ghost use Rattle.base.specs.Cells.{laid};
ghost use Rattle.h265.specs.Strings.{bit};
ghost use Rattle.model.specs.Domain.{no_color};
ghost use Rattle.model.specs.Whole.{no_levels};
ghost use Rattle.flat.specs.Flat.{number, byte, each, color_at, levels_at, long_at, block_of, predictor_of, byte_of, signed, config_of, source_of, short, head_of, colors_of, levels_of, flat_block, flat_predictor};

use model::{Color, Levels, PaletteConfig, PaletteCu, PalettePredictor, SourceBlock};

// The number at a place, the one given past the end.
fn number<T: Copy>(list: &[T], i: usize, past: T) -> T
    ensures { result ≡ get_or list.now i past }
{
    list.get(i).copied().unwrap_or(past)
}

// A number held to a byte.
pub fn byte(x: u16) -> u8
    ensures { result ≡ byte x }
{
    x.min(255) as u8
}

// The colour at a place.
#[tactic(auto, unfolding(crate::specs::Flat::color_at))]
fn color_at(list: &[u16], p: usize) -> Color
    requires { p ≤ 4432 }
    ensures { result ≡ color_at list.now p }
{
    if p + 3 <= list.len() {
        return color_in(list, p);
    }
    Color {
        y: number(list, p, 0),
        cb: number(list, p + 1, 0),
        cr: number(list, p + 2, 0),
    }
}

// The colour at a place that is there.
#[tactic(auto, unfolding(crate::specs::Flat::color_at))]
fn color_in(list: &[u16], p: usize) -> Color
    requires { p + 3 ≤ length list.now }
    ensures { result ≡ color_at list.now p }
{
    Color {
        y: list[p],
        cb: list[p + 1],
        cr: list[p + 2],
    }
}

// The levels at a place that is there.
#[tactic(auto, unfolding(crate::specs::Flat::levels_at))]
fn levels_in(list: &[u16], p: usize) -> Levels
    requires { p + 3 ≤ length list.now }
    ensures { result ≡ levels_at list.now p }
{
    Levels {
        y: list[p],
        cb: list[p + 1],
        cr: list[p + 2],
    }
}

// A block's palette.
pub fn palette_of(list: &[u16]) -> [Color; 64]
    requires { 4432 ≤ length list.now }
    ensures { result ≡ each no_color 64 (λ i. color_at list.now (16 + 3 * i)) }
{
    let mut out = [Color { y: 0, cb: 0, cr: 0 }; 64];
    for (i, color) in out.iter_mut().enumerate() {
        *color = color_in(list, 16 + 3 * i);
    }
    out
}

// A block's flags.
pub fn flags_of(list: &[u16]) -> [bool; 128]
    requires { 4432 ≤ length list.now }
    ensures { result ≡ each false 128 (λ i. eqb (number list.now (208 + i)) 1) }
{
    let mut out = [false; 128];
    for (i, flag) in out.iter_mut().enumerate() {
        *flag = list[208 + i] == 1;
    }
    out
}

// A block's indices.
pub fn indices_of(list: &[u16]) -> [u8; 1024]
    requires { 4432 ≤ length list.now }
    ensures { result ≡ each 0 1024 (λ i. byte (number list.now (336 + i))) }
{
    let mut out = [0; 1024];
    for (i, index) in out.iter_mut().enumerate() {
        *index = byte(list[336 + i]);
    }
    out
}

// A block's levels onto cells lent for them, four at a turn.
fn read_escapes(list: &[u16], out: &mut [Levels; 1024])
    requires { 4432 ≤ length list.now }
    ensures { out.new ≡ laid (λ i. levels_at list.now (1360 + 3 * i)) out.old 0 1024 }
{
    for k in 0..256 {
        let i = 4 * k;
        let a = levels_in(list, 1360 + 3 * i);
        let b = levels_in(list, 1360 + 3 * (i + 1));
        let c = levels_in(list, 1360 + 3 * (i + 2));
        let d = levels_in(list, 1360 + 3 * (i + 3));
        out[i] = a;
        out[i + 1] = b;
        out[i + 2] = c;
        out[i + 3] = d;
    }
}

// A block's levels.
pub fn escapes_of(list: &[u16]) -> [Levels; 1024]
    requires { 4432 ≤ length list.now }
    ensures { result ≡ each no_levels 1024 (λ i. levels_at list.now (1360 + 3 * i)) }
{
    let mut out = [Levels { y: 0, cb: 0, cr: 0 }; 1024];
    read_escapes(list, &mut out);
    out
}

// The numbers before a block's palette.
fn head_of(list: &[u16]) -> [u16; 16]
    ensures { result ≡ each 0 16 (number list.now) }
{
    let mut out = [0; 16];
    for (i, x) in out.iter_mut().enumerate() {
        *x = number(list, i, 0);
    }
    out
}

// Four numbers of 16 bits as one.
fn long(a: u16, b: u16, c: u16, d: u16) -> u64
    ensures { result ≡ a + 65536 * b + 4294967296 * c + 281474976710656 * d }
{
    u64::from(a) + 65536 * u64::from(b) + 4294967296 * u64::from(c) + 281474976710656 * u64::from(d)
}

// The block that a list of all its numbers is.
fn whole_block(list: &[u16]) -> PaletteCu
    requires { 4432 ≤ length list.now }
    ensures { result ≡ block_of list.now }
{
    let h = head_of(list);
    let mut escapes = [Levels { y: 0, cb: 0, cr: 0 }; 1024];
    read_escapes(list, &mut escapes);
    PaletteCu {
        size: usize::from(h[0]),
        chroma_idc: byte(h[1]),
        bd_luma: byte(h[2]),
        bd_chroma: byte(h[3]),
        lossless: h[4] == 1,
        palette: palette_of(list),
        palette_size: usize::from(h[5]),
        reused: flags_of(list),
        pred_size: usize::from(h[6]),
        num_signaled: usize::from(h[7]),
        escape_present: h[8] == 1,
        transpose: h[9] == 1,
        indices: indices_of(list),
        escapes,
        sse: long(h[11], h[12], h[13], h[14]),
        tolerance: u64::from(h[10]),
    }
}

// The first 4432 numbers, 0 past the end.
fn padded(list: &[u16]) -> [u16; 4432]
    ensures { result ≡ each 0 4432 (number list.now) }
{
    let mut out = [0; 4432];
    let n = list.len().min(4432);
    out[..n].copy_from_slice(&list[..n]);
    out
}

// The block that a list of numbers is.
pub fn block_of(list: &[u16]) -> PaletteCu
    ensures { result ≡ block_of list.now }
{
    if 4432 <= list.len() {
        return whole_block(list);
    }
    whole_block(&padded(list))
}

// A predictor's entries.
fn entries_of(list: &[u16]) -> [Color; 128]
    ensures { result ≡ each no_color 128 (λ i. color_at list.now (1 + 3 * i)) }
{
    let mut out = [Color { y: 0, cb: 0, cr: 0 }; 128];
    for (i, color) in out.iter_mut().enumerate() {
        *color = color_at(list, 1 + 3 * i);
    }
    out
}

// The predictor that a list of numbers is.
#[tactic(auto, unfolding(crate::specs::Flat::predictor_of))]
pub fn predictor_of(list: &[u16]) -> PalettePredictor
    ensures { result ≡ predictor_of list.now }
{
    let entries = entries_of(list);
    PalettePredictor {
        entries,
        size: usize::from(number(list, 0, 0)),
    }
}

// A signed number held to a byte, negatives as 255.
#[tactic(auto, unfolding(crate::specs::Flat::byte_of))]
fn byte_of(x: i32) -> u8
    ensures { result ≡ byte_of x }
{
    u8::try_from(x).unwrap_or(255)
}

// The byte at a place of signed numbers.
fn byte_at(list: &[i32], i: usize) -> u8
    ensures { result ≡ byte_of (signed list.now i) }
{
    byte_of(number(list, i, 0))
}

// The configuration that a list of numbers is.
#[tactic(auto, unfolding(crate::specs::Flat::config_of))]
pub fn config_of(list: &[i32]) -> PaletteConfig
    ensures { result ≡ config_of list.now }
{
    PaletteConfig {
        num_comps: usize::from(byte_at(list, 0)),
        chroma_idc: byte_at(list, 1),
        bd_luma: byte_at(list, 2),
        bd_chroma: byte_at(list, 3),
        qp_y: number(list, 4, 0),
        qp_cb: number(list, 5, 0),
        qp_cr: number(list, 6, 0),
        lossless: byte_at(list, 7) == 1,
    }
}

// The geometry that a list of numbers is.
#[tactic(auto, unfolding(crate::specs::Flat::source_of))]
pub fn source_of(list: &[usize]) -> SourceBlock
    ensures { result ≡ source_of list.now }
{
    SourceBlock {
        yw: number(list, 0, 0),
        yh: number(list, 1, 0),
        cw: number(list, 2, 0),
        chh: number(list, 3, 0),
        x0: number(list, 4, 0),
        y0: number(list, 5, 0),
        size: number(list, 6, 0),
    }
}
