// The palette predictor, lent to its update and changed there.
#![tactic(auto)]

ghost use Rattle.std.specs.Prelude.{◌≡◌};
ghost use Rattle.predictor.specs.Update.{update_of};
ghost use Rattle.refusal.specs.Refusal.{code_of};

use model::{PaletteCu, PalettePredictor};
use refusal::Refusal;

// The lent predictor becomes the one after a block, or there is a refusal, which leaves it as it was.
pub fn update(p: &mut PalettePredictor, cu: PaletteCu, limit: usize) -> Result<(), Refusal>
    ensures { (code_of result ≡ (update_of p.old cu limit).refusal) × (p.new ≡ (update_of p.old cu limit).predictor) }
{
    *p = predictor::update(*p, cu, limit)?;
    Ok(())
}
