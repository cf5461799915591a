// The reader for other languages, nothing required. A predictor and a block are lists of numbers, as crate flat lays them out; runs are such a list, as crate flatplan has them. Answers a refusal's number, with its place at the first place of a list, and leaves the other memory lent as it was; or answers 0, with the block and its runs from the start of their lists, the number of runs and of the bins used at the first places of theirs.
#![tactic(auto)]

ghost use Rattle.std.specs.Prelude.{◌≡◌, Ok};
ghost use Rattle.readblock.specs.Read.{as_read};
ghost use Rattle.exports_read.specs.Calls.{Memory, Lent, laid_read, read_out};

use flat::predictor_of;
use flatplan::{lay_runs, put_count};
use layflat::lay_block;
use read::read_palette_cu;
use readblock::BlockRead;

// A block, its runs, their number and that of the bins used.
fn lay_read(
    read: BlockRead,
    block: &mut [u16],
    runs: &mut [u32],
    count: &mut [usize],
    used: &mut [usize],
)
    ensures { record { block = block.exit.now; runs = runs.new; count = count.new; used = used.new }
        ≡ laid_read (as_read (Ok read)) (record { block = block.entry.now; runs = runs.old; count = count.old; used = used.old }) }
{
    lay_block(read.cu, block);
    lay_runs(read.runs, read.count, runs);
    put_count(count, read.count);
    put_count(used, read.used);
}

// The block and the runs at the start of a list of bins; the run list has room for a quarter of its numbers.
#[unsafe(no_mangle)]
pub extern "C" fn velomitra_read_palette_cu(
    bins: &[u8],
    size: usize,
    format: u8,
    luma: u8,
    chroma: u8,
    lossless: bool,
    predictor: &[u16],
    block: &mut [u16],
    runs: &mut [u32],
    count: &mut [usize],
    used: &mut [usize],
    place: &mut [usize],
) -> u8
    ensures { (result, record { memory = record { block = block.exit.now; runs = runs.new; count = count.new; used = used.new }; place = place.new })
        ≡ read_out size format luma chroma lossless predictor.now bins.now (record { memory = record { block = block.entry.now; runs = runs.old; count = count.old; used = used.old }; place = place.old }) }
{
    let p = predictor_of(predictor);
    match read_palette_cu(
        bins,
        size,
        format,
        luma,
        chroma,
        lossless,
        p,
        runs.len() / 4,
    ) {
        Ok(read) => {
            lay_read(read, block, runs, count, used);
            0
        }
        Err(refused) => {
            put_count(place, refused.place);
            u8::from(refused.refusal)
        }
    }
}
