// The run planner: refusals, and the runs of the cheapest path.
#![tactic(auto)]

ghost use Rattle.std.specs.Prelude.{◌≡◌, true};
ghost use Rattle.model.specs.Whole.{holds};
ghost use Rattle.plan.specs.Answer.{block_plan, plan_of};
ghost use Rattle.plan.specs.Planned.{as_plan};

use cheapest::plan_cells;
use extent::greatest_index;
use finish::Found;
use model::PaletteCu;
use rates::{RateModel, rates_in};
use refusal::Refusal;
use whole::{block_size_in, holds_together};

// The plan of a block that holds together; none where there is nothing to code.
fn plan_block(cu: PaletteCu, m: RateModel, room: usize) -> Result<Option<Found>, Refusal>
    requires { holds 64 cu ≡ true }
    ensures { as_plan result ≡ block_plan cu m room }
{
    let most = greatest_index(cu.palette_size, cu.escape_present);
    if most == 0 {
        return Ok(None);
    }
    let found = plan_cells(&cu.indices, cu.size, u32::from(most), m);
    if room < found.count {
        return Err(Refusal::Room);
    }
    Ok(Some(found))
}

// The runs of a block at the least rate, as far as `room` takes them; none where there is nothing to code.
pub fn plan_runs(cu: PaletteCu, m: RateModel, room: usize) -> Result<Option<Found>, Refusal>
    ensures { as_plan result ≡ plan_of cu m room }
{
    if !block_size_in(cu) {
        return Err(Refusal::Geometry);
    }
    if !rates_in(m) {
        return Err(Refusal::Rate);
    }
    if !holds_together(64, cu) {
        return Err(Refusal::Block);
    }
    plan_block(cu, m, room)
}
