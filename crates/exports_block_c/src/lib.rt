// Assignment and the error figure as C calls them: each export states the contract of the function of crate `exports_block` that it calls.
#![tactic(auto)]

ghost use Rattle.std.specs.Prelude.{◌≡◌};
ghost use Rattle.exports_block.specs.Calls.{assign_out, sse_out};

// The block with its cells assigned to its palette; in the list itself where that is whole.
#[unsafe(no_mangle)]
pub extern "C" fn velomitra_assign_indices(
    luma: &[u16],
    cb: &[u16],
    cr: &[u16],
    config: &[i32],
    source: &[usize],
    transpose: bool,
    block: &mut [u16],
) -> u8
    ensures { (result, block.new) ≡ assign_out luma.now cb.now cr.now config.now source.now transpose block.old }
{
    exports_block::velomitra_assign_indices(luma, cb, cr, config, source, transpose, block)
}

// The error figure of a block, at the first place of a list.
#[unsafe(no_mangle)]
pub extern "C" fn velomitra_palette_sse(
    luma: &[u16],
    cb: &[u16],
    cr: &[u16],
    config: &[i32],
    source: &[usize],
    block: &[u16],
    figure: &mut [u64],
) -> u8
    ensures { (result, figure.new) ≡ sse_out luma.now cb.now cr.now config.now source.now block.now figure.old }
{
    exports_block::velomitra_palette_sse(luma, cb, cr, config, source, block, figure)
}
