// Escape levels of a block's cells, and what cells decode to.
#![tactic(auto)]

ghost use Rattle.std.specs.Prelude.{◌≡◌, Bool, true, false, ℕ, ◌<◌, ◌≤◌, pos, length, get_or};
ghost use Rattle.base.specs.Pick.{pick};
ghost use Rattle.base.specs.Cells.{laid};
ghost use Rattle.h265.specs.Escape.{escape_value};
ghost use Rattle.quant.specs.Quant.{level_of};
ghost use Rattle.model.specs.Domain.{config_in};
ghost use Rattle.model.specs.Whole.{no_levels};
ghost use Rattle.levels.specs.Levels.{scale_of, levels_of, levels_at, values_of, value_at};
ghost use Rattle.levels.specs.Laws.{Fit, Small};

use model::{Levels, PaletteConfig};

// How escapes are scaled: the steps, the greatest samples, and whether chroma is in use.
#[derive(Clone, Copy)]
pub struct Scale {
    pub lossless: bool,
    pub chroma: bool,
    pub sy: u64,
    pub su: u64,
    pub sv: u64,
    pub ym: u64,
    pub cm: u64,
}

// The scale of a configuration.
pub fn scale_of(c: PaletteConfig) -> Scale
    requires { config_in c ≡ true }
    ensures { result ≡ scale_of c }
{
    let sy = quant::step(c.qp_y);
    let su = quant::step(c.qp_cb);
    let sv = quant::step(c.qp_cr);
    let ym = u64::from(domain::most_in(c.bd_luma));
    let cm = u64::from(domain::most_in(c.bd_chroma));
    Scale {
        lossless: c.lossless,
        chroma: c.chroma_idc != 0,
        sy,
        su,
        sv,
        ym,
        cm,
    }
}

// The level of one component, 0 where it is not in use.
fn one_level(used: bool, lossless: bool, step: u64, most: u64, v: u64) -> u16
    requires { (40 ≤ step) × (step ≤ 294912) × (v ≤ 4095) }
    ensures { result ≡ pick used (level_of lossless step most v) 0 }
{
    if used {
        quant::quantize_escape(lossless, step, most, v) as u16
    } else {
        0
    }
}

// The levels of a colour.
#[tactic(auto, unfolding(crate::specs::Levels::levels_of))]
pub fn levels_of(s: Scale, e: u64) -> Levels
    requires { Fit s × Small e }
    ensures { result ≡ levels_of s e }
{
    let y = one_level(true, s.lossless, s.sy, s.ym, e % 65536);
    let cb = one_level(s.chroma, s.lossless, s.su, s.cm, e / 65536 % 65536);
    let cr = one_level(s.chroma, s.lossless, s.sv, s.cm, e / 4294967296 % 65536);
    Levels { y, cb, cr }
}

// The levels of a cell of index k; 0 where it is no escape.
#[tactic(auto, unfolding(crate::specs::Levels::levels_at))]
fn cell_levels(s: Scale, n: usize, k: u8, e: u64) -> Levels
    requires { Fit s × Small e }
    ensures { result ≡ levels_at s n k e }
{
    if usize::from(k) == n {
        levels_of(s, e)
    } else {
        Levels { y: 0, cb: 0, cr: 0 }
    }
}

// The levels of the first m cells; those past them stay.
pub fn levels(
    s: Scale,
    n: usize,
    indices: &[u8; 1024],
    cells: &[u64; 1024],
    m: usize,
    escapes: [Levels; 1024],
) -> [Levels; 1024]
    requires { Fit s × (m ≤ 1024) × ((j : ℕ) → j < m → Small (get_or cells.now j 0)) }
    ensures { result ≡ laid (λ j. levels_at s n (get_or indices.now j 0) (get_or cells.now j 0)) escapes 0 m }
{
    let mut out = escapes;
    for i in 0..m {
        out[i] = cell_levels(s, n, indices[i], cells[i]);
    }
    out
}

// The value of one component's level.
fn one_value(lossless: bool, step: u64, most: u64, level: u16) -> u16
    requires { (step ≤ 294912) × (most ≤ 65535) }
    ensures { result ≡ escape_value lossless step most (pos level) }
{
    quant::dequant_escape(lossless, step, most, i32::from(level)) as u16
}

// The colour that levels decode to.
#[tactic(auto, unfolding(crate::specs::Levels::values_of))]
pub fn values_of(s: Scale, l: Levels) -> u64
    requires { Fit s }
    ensures { result ≡ values_of s l }
{
    let y = one_value(s.lossless, s.sy, s.ym, l.y);
    let u = one_value(s.lossless, s.su, s.cm, l.cb);
    let v = one_value(s.lossless, s.sv, s.cm, l.cr);
    entries::pack(y, u, v)
}

// Entry k; 0 past the array.
pub fn entry(palette: &[u64; 64], k: usize) -> u64
    requires { length palette.now ≡ 64 }
    ensures { result ≡ get_or palette.now k 0 }
{
    palette.get(k).copied().unwrap_or(0)
}

// The colour that a cell of index k decodes to.
#[tactic(auto, unfolding(crate::specs::Levels::value_at))]
fn cell_value(s: Scale, palette: &[u64; 64], n: usize, k: u8, l: Levels) -> u64
    requires { Fit s × (length palette.now ≡ 64) }
    ensures { result ≡ value_at s palette.now n k l }
{
    let i = usize::from(k);
    if i == n {
        values_of(s, l)
    } else {
        entry(palette, i)
    }
}

// What the first m cells decode to.
pub fn values(
    s: Scale,
    palette: &[u64; 64],
    n: usize,
    indices: &[u8; 1024],
    escapes: [Levels; 1024],
    m: usize,
    out: &mut [u64; 1024],
)
    requires { Fit s × (m ≤ 1024) × (length palette.now ≡ 64) }
    ensures { out.new ≡ laid (λ j. value_at s palette.now n (get_or indices.now j 0) (get_or escapes j no_levels)) out.old 0 m }
{
    for i in 0..m {
        out[i] = cell_value(s, palette, n, indices[i], escapes[i]);
    }
}
