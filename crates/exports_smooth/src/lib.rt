// Smoothing for other languages, nothing required. Blocks, configurations and geometries are lists of numbers, as crate flat lays them out.
#![tactic(auto)]

ghost use Rattle.std.specs.Prelude.{◌≡◌, ◌+◌, ◌*◌};
ghost use Rattle.h265.specs.Strings.{bit};
ghost use Rattle.exports_smooth.specs.Calls.{smooth_out};

use flat::{block_of, config_of, source_of};
use layflat::lay_block;
use smoothing::smooth_indices;

// The block with its index map smoothed, and whether a run was moved; or twice a refusal's number, and the block as it was.
#[unsafe(no_mangle)]
pub extern "C" fn velomitra_smooth_indices(
    luma: &[u16],
    cb: &[u16],
    cr: &[u16],
    config: &[i32],
    source: &[usize],
    lambda: f32,
    bits_per_run: f32,
    block: &mut [u16],
) -> u16
    ensures { (result, block.new) ≡ smooth_out luma.now cb.now cr.now config.now source.now lambda bits_per_run block.old }
{
    let c = config_of(config);
    let g = source_of(source);
    let cu = block_of(block);
    let done = smooth_indices(luma, cb, cr, c, g, lambda, bits_per_run, cu);
    match done {
        Ok(smoothed) => {
            lay_block(smoothed.cu, block);
            u16::from(smoothed.changed)
        }
        Err(refusal) => 2 * u16::from(u8::from(refusal)),
    }
}
