// Planning for other languages, nothing required. A block is a list of numbers, as crate flat lays it out; rates and runs are such lists, as crate flatplan has them. Answers a refusal's number and leaves the memory lent as it was; or answers 0, with the runs from the start of their list, their count and the total in bits at the first places of theirs. A count of 0, with a total of 0, is nothing to code.
#![tactic(auto)]

ghost use Rattle.std.specs.Prelude.{◌≡◌, true, ◌≤◌, length};
ghost use Rattle.flat.specs.Flat.{block_of};
ghost use Rattle.flatready.specs.Ready.{BlockReady};
ghost use Rattle.model.specs.Whole.{max_index};
ghost use Rattle.plan.specs.Planned.{as_plan};
ghost use Rattle.rates.specs.Rates.{rates_in};
ghost use Rattle.refusal.specs.Refusal.{code_of};
ghost use Rattle.exports_plan.specs.Calls.{Lent, laid_runs, laid_nothing, plan_laid, lent_out, plan_out};

use extent::greatest_index;
use finish::Found;
use flat::block_of;
use flatplan::{lay_runs, model_of};
use flatready::block_ready;
use laying::store;
use plan::plan_runs;
use planonto::plan_onto;
use rates::{RateModel, rates_in};
use refusal::{Refusal, code};

// Runs, their count and their total.
fn lay_planned(found: Found, runs: &mut [u32], count: &mut [usize], total: &mut [f32])
    ensures { (0, record { runs = runs.exit.now; count = count.new; total = total.new })
        ≡ laid_runs found.runs found.count found.total (record { runs = runs.entry.now; count = count.old; total = total.old }) }
{
    lay_runs(found.runs, found.count, runs);
    store(count, 0, found.count);
    store(total, 0, found.total);
}

// No runs, and a total of 0.
fn lay_nothing(count: &mut [usize], total: &mut [f32])
    ensures { (0, count.new, total.new) ≡ laid_nothing count.old total.old }
{
    store(count, 0, 0);
    store(total, 0, 0.0);
}

// A planner's answer that is no refusal.
fn lay_plan(plan: Option<Found>, runs: &mut [u32], count: &mut [usize], total: &mut [f32])
    ensures { (0, record { runs = runs.exit.now; count = count.new; total = total.new })
        ≡ plan_laid (as_plan (Ok plan)).answer (as_plan (Ok plan)).runs (record { runs = runs.entry.now; count = count.old; total = total.old }) }
{
    match plan {
        None => lay_nothing(count, total),
        Some(found) => lay_planned(found, runs, count, total),
    }
}

// A block's indices, from a list that is whole.
fn cells_of(block: &[u16]) -> [u8; 1024]
    requires { 4432 ≤ length block.now }
    ensures { result ≡ (block_of block.now).indices }
{
    let mut out = [0; 1024];
    for (i, cell) in out.iter_mut().enumerate() {
        *cell = block[336 + i].min(255) as u8;
    }
    out
}

// The plan of a block that holds together and has more than one index, from its list.
fn plan_list(
    block: &[u16],
    m: RateModel,
    most: u32,
    runs: &mut [u32],
    count: &mut [usize],
    total: &mut [f32],
) -> Result<(), Refusal>
    requires { BlockReady block.now × (rates_in m ≡ true) × (most ≡ max_index (block_of block.now)) × (1 ≤ most) × (most ≤ 64) }
    ensures { (code_of result, record { runs = runs.exit.now; count = count.new; total = total.new })
        ≡ lent_out (block_of block.now) m (record { runs = runs.entry.now; count = count.old; total = total.old }) }
{
    let xs = cells_of(block);
    let f = plan_onto(&xs, usize::from(block[0]), most, m, runs);
    if runs.len() / 4 < f.count {
        return Err(Refusal::Room);
    }
    store(count, 0, f.count);
    store(total, 0, f.total);
    Ok(())
}

// The plan of a block that holds together.
fn plan_held(
    block: &[u16],
    m: RateModel,
    runs: &mut [u32],
    count: &mut [usize],
    total: &mut [f32],
) -> Result<(), Refusal>
    requires { BlockReady block.now }
    ensures { (code_of result, record { runs = runs.exit.now; count = count.new; total = total.new })
        ≡ lent_out (block_of block.now) m (record { runs = runs.entry.now; count = count.old; total = total.old }) }
{
    if !rates_in(m) {
        return Err(Refusal::Rate);
    }
    let most = greatest_index(usize::from(block[5]), block[8] == 1);
    if most == 0 {
        lay_nothing(count, total);
        return Ok(());
    }
    plan_list(block, m, u32::from(most), runs, count, total)
}

// The plan of any block, by way of its record.
fn plan_record(
    block: &[u16],
    m: RateModel,
    runs: &mut [u32],
    count: &mut [usize],
    total: &mut [f32],
) -> Result<(), Refusal>
    ensures { (code_of result, record { runs = runs.exit.now; count = count.new; total = total.new })
        ≡ lent_out (block_of block.now) m (record { runs = runs.entry.now; count = count.old; total = total.old }) }
{
    let cu = block_of(block);
    let plan = plan_runs(cu, m, runs.len() / 4)?;
    lay_plan(plan, runs, count, total);
    Ok(())
}

// The runs of a block at the least rate, as many as the list has room for.
#[unsafe(no_mangle)]
pub extern "C" fn velomitra_plan_runs(
    block: &[u16],
    rates: &[f32],
    runs: &mut [u32],
    count: &mut [usize],
    total: &mut [f32],
) -> u8
    ensures { (result, record { runs = runs.exit.now; count = count.new; total = total.new })
        ≡ plan_out block.now rates.now (record { runs = runs.entry.now; count = count.old; total = total.old }) }
{
    let m = model_of(rates);
    let done = if block_ready(block) {
        plan_held(block, m, runs, count, total)
    } else {
        plan_record(block, m, runs, count, total)
    };
    code(done)
}
