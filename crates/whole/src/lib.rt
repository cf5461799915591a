// When a block holds together, clause by clause.
#![tactic(auto)]

ghost use Rattle.std.specs.Prelude.{◌≡◌, ◌+◌, ◌-◌, ◌*◌, ◌≤◌, eqb, leb, length, get_or};
ghost use Rattle.base.specs.Tests.{up_to};
ghost use Rattle.h265.specs.Reuse.{trues};
ghost use Rattle.h265.specs.Strings.{bit};
ghost use Rattle.model.specs.Domain.{color_in, no_color};
ghost use Rattle.model.specs.Whole.{block_size_in, matches, cell_holds, holds, assignable};
ghost use Rattle.whole.specs.Parts.{size_holds, format_are, empty_is, frame_holds, level_cap, chroma_cap, Within, luma_cap_of, chroma_cap_of, escape_holds, quiet_from};

use domain::{color_in, depth_in, even_in, most_in, size_in};
use extent::{area, greatest_index};
use model::{Color, Levels, PaletteConfig, PaletteCu};

// Whether a size is in the domain, and even where the format asks it.
fn size_holds(format: u8, size: usize) -> bool
    ensures { result ≡ size_holds format size }
{
    size_in(size) & even_in(format, size)
}

// The test for refusal 2 of a call that is given a block and no size.
#[tactic(auto, unfolding(model::specs::Whole::block_size_in))]
pub fn block_size_in(cu: PaletteCu) -> bool
    ensures { result ≡ block_size_in cu }
{
    size_holds(cu.chroma_idc, cu.size)
}

// Whether the block's format, depths and lossless flag are the call's.
pub fn matches(c: PaletteConfig, cu: PaletteCu) -> bool
    ensures { result ≡ matches c cu }
{
    (cu.chroma_idc == c.chroma_idc)
        & (cu.bd_luma == c.bd_luma)
        & (cu.bd_chroma == c.bd_chroma)
        & (cu.lossless == c.lossless)
}

// Whether format and depths are in the domain.
fn format_holds(format: u8, luma: u8, chroma: u8) -> bool
    ensures { result ≡ format_are format luma chroma }
{
    (format <= 3) & depth_in(luma) & depth_in(chroma)
}

// How many flags are on.
#[tactic(auto, using(crate::specs::Parts::trues_count))]
fn flagged(flags: &[bool]) -> usize
    ensures { (result ≡ trues flags.now) × (result ≤ length flags.now) }
{
    flags.iter().filter(|flag| **flag).count()
}

// Whether flagged and signalled entries make the palette.
fn counts_hold(flags: &[bool], signaled: usize, size: usize) -> bool
    ensures { result ≡ eqb (trues flags.now + signaled) size }
{
    let reused = flagged(flags);
    if size < reused {
        return false;
    }
    signaled == size - reused
}

// Whether the indices are at most m.
fn indices_hold(indices: &[u8], m: u8) -> bool
    ensures { result ≡ up_to (length indices.now) (λ i. leb (get_or indices.now i 0) m) }
{
    let mut ok = true;
    for x in indices {
        ok &= *x <= m;
    }
    ok
}

// The greatest level of a component, as far as 16 bits hold it.
fn level_cap(lossless: bool, depth: u8) -> u16
    ensures { result ≡ level_cap lossless depth }
{
    if lossless { most_in(depth) } else { 32767 }
}

// The same of a chroma component: any level where it is not in use.
fn chroma_cap(lossless: bool, format: u8, depth: u8) -> u16
    ensures { result ≡ chroma_cap lossless format depth }
{
    if format == 0 {
        u16::MAX
    } else {
        level_cap(lossless, depth)
    }
}

// Whether a cell's levels are in range.
fn within(ym: u16, cm: u16, l: Levels) -> bool
    ensures { Within ym cm l result }
{
    (l.y <= ym) & (l.cb <= cm) & (l.cr <= cm)
}

// Whether 16 cells from i on are among the first n, and none has index p.
fn quiet(indices: &[u8; 1024], i: usize, n: usize, p: u8) -> bool
    requires { (i ≤ n) × (n ≤ 1024) }
    ensures { result ≡ quiet_from indices.now i n p }
{
    if n < i + 16 {
        return false;
    }
    let mut ok = true;
    for x in &indices[i..i + 16] {
        ok &= *x != p;
    }
    ok
}

// Whether the levels of each escape cell among the first n are in range.
fn escapes_hold(cu: &PaletteCu, n: usize, ym: u16, cm: u16) -> bool
    requires { (n ≤ 1024) × (ym ≡ luma_cap_of cu.now) × (cm ≡ chroma_cap_of cu.now) × (cu.now.palette_size ≤ 64) }
    ensures { result ≡ up_to n (escape_holds cu.now) }
{
    let p = cu.palette_size as u8;
    let mut i: usize = 0;
    // Stays a while: the step is 16 where no cell of these escapes.
    while i < n {
        if quiet(&cu.indices, i, n, p) {
            i += 16;
        } else if usize::from(cu.indices[i]) != cu.palette_size || within(ym, cm, cu.escapes[i]) {
            i += 1;
        } else {
            return false;
        }
    }
    true
}

// Whether each index is at most M, and the levels of each escape cell in range.
fn cells_hold(cu: &PaletteCu) -> bool
    requires { (cu.now.size ≤ 32) × (cu.now.palette_size ≤ 64) }
    ensures { result ≡ up_to (cu.now.size * cu.now.size) (cell_holds cu.now) }
{
    let n = area(cu.size);
    let m = greatest_index(cu.palette_size, cu.escape_present);
    let ok = indices_hold(&cu.indices[..n], m);
    if cu.palette_size <= usize::from(m) {
        let ym = level_cap(cu.lossless, cu.bd_luma);
        let cm = chroma_cap(cu.lossless, cu.chroma_idc, cu.bd_chroma);
        return ok & escapes_hold(cu, n, ym, cm);
    }
    ok
}

// Whether an empty palette has escapes and is not transposed.
fn empty_holds(size: usize, escape: bool, transpose: bool) -> bool
    ensures { result ≡ empty_is size escape transpose }
{
    size != 0 || escape & !transpose
}

// The clauses on numbers that every call with a block tests.
fn frame_holds(limit: usize, cu: &PaletteCu) -> bool
    ensures { result ≡ frame_holds limit cu.now.size cu.now.chroma_idc cu.now.bd_luma cu.now.bd_chroma cu.now.palette_size cu.now.tolerance }
{
    size_holds(cu.chroma_idc, cu.size)
        & format_holds(cu.chroma_idc, cu.bd_luma, cu.bd_chroma)
        & (cu.palette_size <= limit)
        & (cu.tolerance <= 16)
}

// Whether the palette's entries fit their depths.
fn palette_holds(cu: &PaletteCu) -> bool
    requires { cu.now.palette_size ≤ 64 }
    ensures { result ≡ up_to cu.now.palette_size (λ i. color_in cu.now.chroma_idc cu.now.bd_luma cu.now.bd_chroma (get_or cu.now.palette i no_color)) }
{
    let mut ok = true;
    for c in &cu.palette[..cu.palette_size] {
        ok &= color_in(cu.chroma_idc, cu.bd_luma, cu.bd_chroma, *c);
    }
    ok
}

// The test for refusal 7.
pub fn holds_together(limit: usize, cu: PaletteCu) -> bool
    requires { limit ≤ 64 }
    ensures { result ≡ holds limit cu }
{
    if frame_holds(limit, &cu) & (cu.pred_size <= 128) {
        let flags = &cu.reused[..cu.pred_size];
        counts_hold(flags, cu.num_signaled, cu.palette_size)
            & palette_holds(&cu)
            & cells_hold(&cu)
            & empty_holds(cu.palette_size, cu.escape_present, cu.transpose)
    } else {
        false
    }
}

// The clauses that assignment tests.
pub fn assignable(limit: usize, cu: PaletteCu) -> bool
    requires { limit ≤ 64 }
    ensures { result ≡ assignable limit cu }
{
    if frame_holds(limit, &cu) & (1 <= cu.palette_size) {
        palette_holds(&cu)
    } else {
        false
    }
}
