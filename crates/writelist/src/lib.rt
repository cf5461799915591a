// The writer of a palette block, with a list of run records that the caller lends.
#![tactic(auto)]

ghost use Rattle.std.specs.Prelude.{◌≡◌, length};
ghost use Rattle.write.specs.Write.{write_of, list_after};
ghost use Rattle.write.specs.Written.{as_written};

use model::{PaletteCu, PaletteRun};
use refusal::Refusal;
use runlist::{capped, no_runs, take_runs};

// The number of bins of a block and of all runs of the lent list, laid from the bin list's start on; with document 01's refusals 2, 7, 8 and 9, which leave it as it was.
pub fn write_palette_cu(
    list: &mut [u8],
    cu: PaletteCu,
    runs: &[PaletteRun],
) -> Result<usize, Refusal>
    ensures { (as_written result ≡ write_of cu runs.now (length runs.now) (length list.old))
        × (list.new ≡ list_after cu runs.now (length runs.now) list.old) }
{
    let taken = take_runs(runs, no_runs(), capped(runs.len()));
    write::write_palette_cu(list, cu, taken, runs.len())
}
