// The planner as C calls it: each export states the contract of the function of crate `exports_plan` that it calls.
#![tactic(auto)]

ghost use Rattle.std.specs.Prelude.{◌≡◌};
ghost use Rattle.exports_plan.specs.Calls.{plan_out};

// The runs of a block at the least rate, as many as the list has room for.
#[unsafe(no_mangle)]
pub extern "C" fn velomitra_plan_runs(
    block: &[u16],
    rates: &[f32],
    runs: &mut [u32],
    count: &mut [usize],
    total: &mut [f32],
) -> u8
    ensures { (result, record { runs = runs.exit.now; count = count.new; total = total.new })
        ≡ plan_out block.now rates.now (record { runs = runs.entry.now; count = count.old; total = total.old }) }
{
    exports_plan::velomitra_plan_runs(block, rates, runs, count, total)
}
