// The refusals 1 to 3 of a call that is given target planes.
#![tactic(auto)]

ghost use Rattle.std.specs.Prelude.{◌≡◌};
ghost use Rattle.base.specs.Tests.{refusal};
ghost use Rattle.refusal.specs.Refusal.{code_of};
ghost use Rattle.targets.specs.Targets.{plane_in, target_in, target_tests};

use domain::{config_in, source_in};
use model::{PaletteConfig, SourceBlock};
use refusal::Refusal;

// Whether a plane of n samples has room for its rows, and its stride for its width.
#[tactic(auto, unfolding(crate::specs::Targets::plane_in), using(crate::specs::Laws::room_div))]
fn plane_in(stride: usize, width: usize, height: usize, n: usize) -> bool
    ensures { result ≡ plane_in stride width height n }
{
    width <= stride && (height == 0 || stride <= n / height)
}

// The test for refusal 3.
#[tactic(auto, unfolding(crate::specs::Targets::target_in))]
fn target_in(format: u8, g: SourceBlock, ys: usize, cs: usize, y: usize, b: usize, r: usize) -> bool
    ensures { result ≡ target_in format g ys cs y b r }
{
    let luma = plane_in(ys, g.yw, g.yh, y);
    let cb = plane_in(cs, g.cw, g.chh, b);
    let cr = plane_in(cs, g.cw, g.chh, r);
    luma && (format == 0 || (cb && cr))
}

// The refusals 1 to 3; ys and cs are the strides, y, b and r the planes' lengths.
pub fn check_targets(
    c: PaletteConfig,
    g: SourceBlock,
    ys: usize,
    cs: usize,
    y: usize,
    b: usize,
    r: usize,
) -> Result<(), Refusal>
    ensures { code_of result ≡ refusal (target_tests c g ys cs y b r) }
{
    if !config_in(c) {
        return Err(Refusal::Config);
    }
    if !source_in(c.chroma_idc, g) {
        return Err(Refusal::Geometry);
    }
    if !target_in(c.chroma_idc, g, ys, cs, y, b, r) {
        return Err(Refusal::Plane);
    }
    Ok(())
}
