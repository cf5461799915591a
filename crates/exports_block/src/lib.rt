// The calls on whole blocks for other languages, nothing required. Blocks, configurations and geometries are lists of numbers, as crate flat lays them out. Each answers a refusal's number and leaves the memory lent to it as it was, or answers 0.
#![tactic(auto)]

ghost use Rattle.std.specs.Prelude.{◌≡◌};
ghost use Rattle.exports_block.specs.Calls.{assign_out, sse_out};

use assigning::assign_indices;
use flat::{block_of, config_of, source_of};
use flatassign::assign_list;
use layflat::lay_block;
use sse::palette_sse;

// The block with its cells assigned to its palette; in the list itself where that is whole.
#[unsafe(no_mangle)]
pub extern "C" fn velomitra_assign_indices(
    luma: &[u16],
    cb: &[u16],
    cr: &[u16],
    config: &[i32],
    source: &[usize],
    transpose: bool,
    block: &mut [u16],
) -> u8
    ensures { (result, block.new) ≡ assign_out luma.now cb.now cr.now config.now source.now transpose block.old }
{
    let c = config_of(config);
    let g = source_of(source);
    let cu = block_of(block);
    if 4432 <= block.len() {
        return refusal::code(assign_list(luma, cb, cr, c, g, transpose, cu, block));
    }
    match assign_indices(luma, cb, cr, c, g, transpose, cu) {
        Ok(after) => {
            lay_block(after, block);
            0
        }
        Err(refusal) => u8::from(refusal),
    }
}

// The error figure of a block, at the first place of a list.
#[unsafe(no_mangle)]
pub extern "C" fn velomitra_palette_sse(
    luma: &[u16],
    cb: &[u16],
    cr: &[u16],
    config: &[i32],
    source: &[usize],
    block: &[u16],
    figure: &mut [u64],
) -> u8
    ensures { (result, figure.new) ≡ sse_out luma.now cb.now cr.now config.now source.now block.now figure.old }
{
    let c = config_of(config);
    let g = source_of(source);
    let cu = block_of(block);
    match palette_sse(luma, cb, cr, c, g, cu) {
        Ok(sse) => {
            laying::store(figure, 0, sse);
            0
        }
        Err(refusal) => u8::from(refusal),
    }
}
