// Analysis of a block's colours on lists of numbers, as crates flat and flatcounter lay them out.
#![tactic(auto)]

ghost use Rattle.std.specs.Prelude.{◌≡◌, true, ◌≤◌};
ghost use Rattle.base.specs.Pick.{pick};
ghost use Rattle.refusal.specs.Refusal.{code_of};
ghost use Rattle.model.specs.Domain.{config_in, depth_in};
ghost use Rattle.analysis.specs.Analyze.{tolerance_at};
ghost use Rattle.flat.specs.Flat.{predictor_of};
ghost use Rattle.flatchoose.specs.Choose.{Lent};
ghost use Rattle.flatanalyse.specs.Cells.{cells_out};

use colors::ColorIndex;
use flat::predictor_of;
use flatchoose::choose_block;
use flatcounter::{lay_counter, read_counter};
use model::PaletteConfig;
use refusal::Refusal;

// 5, 7 or 13, or the block laid; and the counter after it.
pub fn analyze_cells(
    cells: &[u64; 1024],
    c: PaletteConfig,
    size: usize,
    predictor: &[u16],
    tol: u64,
    keys: &mut [u64],
    entry: &mut [u16],
    stamp: &mut [u32],
    block: &mut [u16],
) -> Result<(), Refusal>
    requires { (size ≤ 32) × (depth_in c.bd_luma ≡ true) }
    ensures { (code_of result, record { keys = keys.exit.now; entry = entry.new; stamp = stamp.new; block = block.new })
        ≡ cells_out cells.now c size (predictor_of predictor.now) tol
        (record { keys = keys.entry.now; entry = entry.old; stamp = stamp.old; block = block.old }) }
{
    let p = predictor_of(predictor);
    let mut counter = ColorIndex::new();
    read_counter(keys, entry, stamp, &mut counter);
    analysis::check_lent(c, p, &counter, tol)?;
    let answer = choose_block(cells, c, size, p, tol, &mut counter, block);
    lay_counter(&counter, keys, entry, stamp);
    answer
}

// The luma QP's tolerance of a configuration in the domain, 0 of any other.
pub fn tolerance_of(c: PaletteConfig) -> u64
    ensures { result ≡ pick (config_in c) (tolerance_at c) 0 }
{
    if domain::config_in(c) {
        analysis::tolerance_at(c)
    } else {
        0
    }
}
