// Document 01's domain, test by test, over the records of crate model.
#![tactic(auto)]

ghost use Rattle.std.specs.Prelude.{◌≡◌, ◌*◌, ◌≤◌, min};
ghost use Rattle.model.specs.Domain.{format_in, depth_in, qp_in, config_in, size_in, even_in, side_in, source_in, planes_in, most, most_chroma, color_in, predictor_in};

use model::{Color, PaletteConfig, PalettePredictor, SourceBlock};

// Whether component count and format agree.
#[tactic(auto, unfolding(model::specs::Domain::format_in))]
fn format_in(components: usize, format: u8) -> bool
    ensures { result ≡ format_in components format }
{
    match format {
        0 => components == 1,
        1..=3 => components == 3,
        _ => false,
    }
}

// Whether a depth is 8, 10 or 12.
#[tactic(auto, unfolding(model::specs::Domain::depth_in))]
pub fn depth_in(d: u8) -> bool
    ensures { result ≡ depth_in d }
{
    matches!(d, 8 | 10 | 12)
}

// Whether a QP is from -128 to 75.
#[tactic(auto, unfolding(model::specs::Domain::qp_in))]
fn qp_in(q: i32) -> bool
    ensures { result ≡ qp_in q }
{
    matches!(q, -128..=75)
}

// The test for refusal 1.
#[tactic(auto, unfolding(model::specs::Domain::config_in))]
pub fn config_in(c: PaletteConfig) -> bool
    ensures { result ≡ config_in c }
{
    format_in(c.num_comps, c.chroma_idc)
        & depth_in(c.bd_luma)
        & depth_in(c.bd_chroma)
        & qp_in(c.qp_y)
        & qp_in(c.qp_cb)
        & qp_in(c.qp_cr)
}

// Whether a block's size is in the domain.
#[tactic(auto, unfolding(model::specs::Domain::size_in))]
pub fn size_in(size: usize) -> bool
    ensures { result ≡ size_in size }
{
    matches!(size, 1..=32)
}

// Whether a number of luma samples is even where the format asks it.
#[tactic(auto, unfolding(model::specs::Domain::even_in))]
pub fn even_in(format: u8, x: usize) -> bool
    ensures { result ≡ even_in format x }
{
    match format {
        1 | 2 => x % 2 == 0,
        _ => true,
    }
}

// Whether a picture side is in the domain.
#[tactic(auto, unfolding(model::specs::Domain::side_in))]
fn side_in(w: usize) -> bool
    ensures { result ≡ side_in w }
{
    matches!(w, 1..=65535)
}

// The test for refusal 2.
#[tactic(auto, unfolding(model::specs::Domain::source_in))]
pub fn source_in(format: u8, g: SourceBlock) -> bool
    ensures { result ≡ source_in format g }
{
    size_in(g.size)
        & side_in(g.yw)
        & side_in(g.yh)
        & (g.cw <= 65535)
        & (g.chh <= 65535)
        & (g.x0 <= 65535)
        & (g.y0 <= 65535)
        & even_in(format, g.size)
        & even_in(format, g.x0)
        & even_in(format, g.y0)
}

// The test for refusal 3.
#[tactic(auto, unfolding(model::specs::Domain::planes_in))]
pub fn planes_in(format: u8, g: SourceBlock, y: usize, b: usize, r: usize) -> bool
    requires { (g.yw ≤ 65535) × (g.yh ≤ 65535) × (g.cw ≤ 65535) × (g.chh ≤ 65535) }
    ensures { result ≡ planes_in format g y b r }
{
    let luma = g.yw * g.yh;
    let chroma = g.cw * g.chh;
    (luma <= y) & ((format == 0) | ((chroma <= b) & (chroma <= r)))
}

// The greatest sample of a depth, as far as 16 bits hold it.
pub fn most_in(depth: u8) -> u16
    ensures { result ≡ min 65535 (most depth) }
{
    if depth < 16 {
        let p: u32 = 1 << depth;
        (p - 1) as u16
    } else {
        u16::MAX
    }
}

// The same of a chroma component, 0 in format 0.
fn most_chroma(format: u8, depth: u8) -> u16
    ensures { result ≡ min 65535 (most_chroma format depth) }
{
    if format == 0 { 0 } else { most_in(depth) }
}

// Whether a colour fits its depths.
#[tactic(auto, unfolding(model::specs::Domain::color_in), using(model::specs::DomainLaws::leb_capped))]
pub fn color_in(format: u8, luma: u8, chroma: u8, c: Color) -> bool
    ensures { result ≡ color_in format luma chroma c }
{
    let ym = most_in(luma);
    let cm = most_chroma(format, chroma);
    (c.y <= ym) & (c.cb <= cm) & (c.cr <= cm)
}

// The test for a predictor's part of refusal 5.
#[tactic(auto, unfolding(model::specs::Domain::predictor_in))]
pub fn predictor_in(format: u8, luma: u8, chroma: u8, p: PalettePredictor) -> bool
    ensures { result ≡ predictor_in format luma chroma p }
{
    if 128 < p.size {
        return false;
    }
    let mut ok = true;
    for c in &p.entries[..p.size] {
        ok &= color_in(format, luma, chroma, *c);
    }
    ok
}
