// The predictor's update as C calls it: each export states the contract of the function of crate `exports_update` that it calls.
#![tactic(auto)]

ghost use Rattle.std.specs.Prelude.{◌≡◌};
ghost use Rattle.exports_update.specs.Calls.{update_out};

// The predictor after a block. A limit that is refused is told apart, so that the records stay out of a call in order.
#[unsafe(no_mangle)]
pub extern "C" fn velomitra_update(predictor: &mut [u16], block: &[u16], limit: usize) -> u8
    ensures { (result, predictor.new) ≡ update_out predictor.old block.now limit }
{
    exports_update::velomitra_update(predictor, block, limit)
}
