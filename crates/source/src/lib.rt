// The refusals of a call that is given planes, and the colours of its block.
#![tactic(auto)]

ghost use Rattle.std.specs.Prelude.{◌≡◌, Bool, true, false, [], ◌∷◌, ℕ, ◌*◌, ◌≤◌, length, get_or};
ghost use Rattle.base.specs.Tests.{refusal};
ghost use Rattle.refusal.specs.Refusal.{code_of};
ghost use Rattle.model.specs.Domain.{depth_in, most};
ghost use Rattle.source.specs.Source.{fits, all_fit, plane_tests, source_tests, cells_in};
ghost use Rattle.source.specs.Joined.{Above};

use model::{PaletteConfig, SourceBlock};
use refusal::Refusal;

// Whether a colour fits, luma at most ym, chroma at most cm.
fn fit(c: u64, ym: u64, cm: u64) -> bool
    ensures { result ≡ fits ym cm c }
{
    (c % 65536 <= ym) & (c / 65536 % 65536 <= cm) & (c / 4294967296 % 65536 <= cm)
}

// Whether the colours fit, one by one.
fn each_fits(cells: &[u64], ym: u64, cm: u64) -> bool
    ensures { result ≡ all_fit ym cm (length cells.now) (λ j. get_or cells.now j 0) }
{
    let mut ok = true;
    for c in cells {
        ok &= fit(*c, ym, cm);
    }
    ok
}

// The colours joined, bit by bit: no component of theirs is greater.
fn joined(cells: &[u64]) -> u64
    ensures { Above cells.now (length cells.now) result }
{
    let mut all = 0;
    for c in cells {
        all |= *c;
    }
    all
}

// Whether the colours fit: all of them where they fit joined.
pub fn all_fit(cells: &[u64], ym: u64, cm: u64) -> bool
    ensures { result ≡ all_fit ym cm (length cells.now) (λ j. get_or cells.now j 0) }
{
    fit(joined(cells), ym, cm) || each_fits(cells, ym, cm)
}

// Whether the block's colours fit their depths.
fn samples_in(cells: &[u64; 1024], size: usize, luma: u8, chroma: u8) -> bool
    requires { (size ≤ 32) × (depth_in luma ≡ true) × (depth_in chroma ≡ true) }
    ensures { result ≡ all_fit (most luma) (most chroma) (size * size) (λ j. get_or cells.now j 0) }
{
    let ym = u64::from(domain::most_in(luma));
    let cm = u64::from(domain::most_in(chroma));
    all_fit(&cells[..size * size], ym, cm)
}

// The refusals that look at no sample; y, b and r are the planes' lengths.
fn check_planes(
    c: PaletteConfig,
    g: SourceBlock,
    y: usize,
    b: usize,
    r: usize,
) -> Result<(), Refusal>
    ensures { code_of result ≡ refusal (plane_tests c g y b r) }
{
    if !domain::config_in(c) {
        return Err(Refusal::Config);
    }
    if !domain::source_in(c.chroma_idc, g) {
        return Err(Refusal::Geometry);
    }
    if !domain::planes_in(c.chroma_idc, g, y, b, r) {
        return Err(Refusal::Plane);
    }
    Ok(())
}

// The block's colours, fetched unless its configuration, geometry or planes refuse; a sample that does not fit refuses them too.
pub fn fetch_block(
    luma: &[u16],
    cb: &[u16],
    cr: &[u16],
    c: PaletteConfig,
    g: SourceBlock,
    cells: &mut [u64; 1024],
) -> Result<(), Refusal>
    requires { length cells.old ≡ 1024 }
    ensures { (code_of result ≡ refusal (source_tests luma.now cb.now cr.now c g))
        × (cells.new ≡ cells_in luma.now cb.now cr.now c g cells.old) }
{
    check_planes(c, g, luma.len(), cb.len(), cr.len())?;
    samples::fetch(luma, cb, cr, c.chroma_idc, g, cells);
    if samples_in(cells, g.size, c.bd_luma, c.bd_chroma) {
        Ok(())
    } else {
        Err(Refusal::Sample)
    }
}
