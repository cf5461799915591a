// The predictor's update for other languages, nothing required. Predictor and block are lists of numbers, as crate flat lays them out. A call that is in order is answered on the lists; any other by way of the records.
#![tactic(auto)]

ghost use Rattle.std.specs.Prelude.{◌≡◌};
ghost use Rattle.exports_update.specs.Calls.{update_out};

use flat::{block_of, predictor_of};
use flatready::ready;
use flatupdate::renew;
use layflat::lay_predictor;
use predictor::update;

// The predictor after a block, by way of the records.
fn by_records(predictor: &mut [u16], block: &[u16], limit: usize) -> u8
    ensures { (result, predictor.new) ≡ update_out predictor.old block.now limit }
{
    match update(predictor_of(predictor), block_of(block), limit) {
        Ok(after) => {
            lay_predictor(after, predictor);
            0
        }
        Err(refusal) => u8::from(refusal),
    }
}

// The predictor after a block. A limit that is refused is told apart, so that the records stay out of a call in order.
#[unsafe(no_mangle)]
pub extern "C" fn velomitra_update(predictor: &mut [u16], block: &[u16], limit: usize) -> u8
    ensures { (result, predictor.new) ≡ update_out predictor.old block.now limit }
{
    if 128 < limit {
        return by_records(predictor, block, limit);
    }
    if ready(predictor, block, limit) {
        renew(predictor, block, limit);
        return 0;
    }
    by_records(predictor, block, limit)
}
