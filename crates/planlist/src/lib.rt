// The run planner, with a list of run records that the caller lends.
#![tactic(auto)]

ghost use Rattle.std.specs.Prelude.{◌≡◌, length};
ghost use Rattle.plan.specs.Answer.{plan_of};
ghost use Rattle.planlist.specs.After.{as_planned, runs_after};

use model::{PaletteCu, PaletteRun};
use rates::RateModel;
use refusal::Refusal;
use runlist::lay_runs;

// The runs of a block at the least rate stand at the front of the lent list, and what stood past their count stays; on a refusal, or with nothing to code, all of it. Answers their count and the total in bits.
pub fn plan_runs(
    cu: PaletteCu,
    m: RateModel,
    list: &mut [PaletteRun],
) -> Result<Option<(usize, f32)>, Refusal>
    ensures { (as_planned result ≡ (plan_of cu m (length list.old)).answer) × (list.new ≡ runs_after cu m list.old) }
{
    let Some(found) = plan::plan_runs(cu, m, list.len())? else {
        return Ok(None);
    };
    lay_runs(list, found.runs, found.count);
    Ok(Some((found.count, found.total)))
}
