// The reader of a palette block, with a list of run records that the caller lends.
#![tactic(auto)]

ghost use Rattle.std.specs.Prelude.{◌≡◌, length};
ghost use Rattle.readlist.specs.After.{as_cu_read, cu_read_of, runs_after};

use model::{PaletteCu, PalettePredictor, PaletteRun};
use readblock::BlockRead;
use refusal::Refused;
use runlist::lay_runs;

// The block, the number of its runs and the number of bins used.
#[derive(Clone, Copy)]
pub struct CuRead {
    pub cu: PaletteCu,
    pub count: usize,
    pub used: usize,
}

// A block from the start of a list of bins, or a refusal and its place; its runs stand at the front of the lent list, and what stood past their count stays; on a refusal, all of it.
pub fn read_palette_cu(
    bins: &[u8],
    size: usize,
    format: u8,
    luma: u8,
    chroma: u8,
    lossless: bool,
    p: PalettePredictor,
    list: &mut [PaletteRun],
) -> Result<CuRead, Refused>
    ensures answer { as_cu_read result ≡ cu_read_of size format luma chroma lossless p (length list.old) bins.now }
    ensures runs { list.new ≡ runs_after size format luma chroma lossless p bins.now list.old }
{
    let read = read::read_palette_cu(bins, size, format, luma, chroma, lossless, p, list.len())?;
    let BlockRead {
        cu,
        runs,
        count,
        used,
    } = read;
    lay_runs(list, runs, count);
    Ok(CuRead { cu, count, used })
}
