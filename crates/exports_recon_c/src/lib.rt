// Reconstruction as C calls it: each export states the contract of the function of crate `exports_recon` that it calls.
#![tactic(auto)]

ghost use Rattle.std.specs.Prelude.{◌≡◌};
ghost use Rattle.exports_recon.specs.Calls.{recon_out};

// The block on the planes, whose strides are ys and cs; or a refusal, and the planes as they were.
#[unsafe(no_mangle)]
pub extern "C" fn velomitra_reconstruct(
    luma: &mut [u16],
    cb: &mut [u16],
    cr: &mut [u16],
    ys: usize,
    cs: usize,
    config: &[i32],
    source: &[usize],
    block: &[u16],
) -> u8
    ensures { (result, luma.new, cb.new, cr.new) ≡ recon_out luma.old cb.old cr.old ys cs config.now source.now block.now }
{
    exports_recon::velomitra_reconstruct(luma, cb, cr, ys, cs, config, source, block)
}
