// Reconstruction for other languages, nothing required. Blocks, configurations and geometries are lists of numbers, as crate flat lays them out. A block in order is laid from its list, any other by way of the record.
#![tactic(auto)]

ghost use Rattle.std.specs.Prelude.{◌≡◌};
ghost use Rattle.exports_recon.specs.Calls.{recon_out};

use flat::{block_of, config_of, source_of};
use flatready::block_ready;
use flatrecon::reconstruct_list;
use recon::reconstruct;
use refusal::code;

// The block on the planes, whose strides are ys and cs; or a refusal, and the planes as they were.
#[unsafe(no_mangle)]
pub extern "C" fn velomitra_reconstruct(
    luma: &mut [u16],
    cb: &mut [u16],
    cr: &mut [u16],
    ys: usize,
    cs: usize,
    config: &[i32],
    source: &[usize],
    block: &[u16],
) -> u8
    ensures { (result, luma.new, cb.new, cr.new) ≡ recon_out luma.old cb.old cr.old ys cs config.now source.now block.now }
{
    let c = config_of(config);
    let g = source_of(source);
    if block_ready(block) {
        code(reconstruct_list(luma, cb, cr, ys, cs, c, g, block))
    } else {
        code(reconstruct(luma, cb, cr, ys, cs, c, g, block_of(block)))
    }
}
