// The palette of a block's colours, the block laid in a list of numbers as crate flat lays it out.
#![tactic(auto)]

ghost use Rattle.std.specs.Prelude.{◌≡◌, true, [], ◌∷◌, ◌*◌, ◌≤◌};
ghost use Rattle.base.specs.Tests.{refusal};
ghost use Rattle.refusal.specs.Refusal.{code_of};
ghost use Rattle.model.specs.Domain.{depth_in};
ghost use Rattle.colors.specs.Table.{none_above};
ghost use Rattle.analysis.specs.Analyze.{few_colors, answer_of};
ghost use Rattle.flatchoose.specs.Choose.{block_laid};

use colors::ColorIndex;
use flatmade::lay_made;
use model::{PaletteConfig, PalettePredictor};
use refusal::Refusal;

// 13, or the block laid; and the counter after it.
pub fn choose_block(
    cells: &[u64; 1024],
    c: PaletteConfig,
    size: usize,
    p: PalettePredictor,
    tol: u64,
    counter: &mut ColorIndex,
    block: &mut [u16],
) -> Result<(), Refusal>
    requires { (size ≤ 32) × (depth_in c.bd_luma ≡ true) × (p.size ≤ 128) × (none_above counter.old.generation counter.old.stamp ≡ true) }
    ensures { (code_of result, (counter.new, block.new))
        ≡ block_laid (answer_of (refusal ((few_colors cells.now (size * size), 13) ∷ [])) cells.now c size p counter.old tol) block.old }
{
    let painting = analysis::choose_palette(cells, size, c.bd_luma, p, counter, tol)?;
    lay_made(c, size, p.size, tol, painting, block);
    Ok(())
}
