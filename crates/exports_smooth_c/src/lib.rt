// Smoothing as C calls it: each export states the contract of the function of crate `exports_smooth` that it calls.
#![tactic(auto)]

ghost use Rattle.std.specs.Prelude.{◌≡◌};
ghost use Rattle.exports_smooth.specs.Calls.{smooth_out};

// The block with its index map smoothed, and whether a run was moved; or a refusal, and the block as it was.
#[unsafe(no_mangle)]
pub extern "C" fn velomitra_smooth_indices(
    luma: &[u16],
    cb: &[u16],
    cr: &[u16],
    config: &[i32],
    source: &[usize],
    lambda: f32,
    bits_per_run: f32,
    block: &mut [u16],
) -> u16
    ensures { (result, block.new) ≡ smooth_out luma.now cb.now cr.now config.now source.now lambda bits_per_run block.old }
{
    exports_smooth::velomitra_smooth_indices(
        luma,
        cb,
        cr,
        config,
        source,
        lambda,
        bits_per_run,
        block,
    )
}
