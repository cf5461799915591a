// The writer for other languages, nothing required. A block is a list of numbers, as crate flat lays it out; runs are such a list, as crate flatplan has them. A call in order is written from the lists themselves, any other by way of the records. Answers a refusal's number and leaves the memory lent as it was; or answers 0, with the bins from the start of their list and their number at the first place of its own.
#![tactic(auto)]

ghost use Rattle.std.specs.Prelude.{◌≡◌, true, length};
ghost use Rattle.flat.specs.Flat.{block_of};
ghost use Rattle.flatplan.specs.Flat.{runs_of};
ghost use Rattle.write.specs.Lists.{Lists};
ghost use Rattle.write.specs.Write.{write_of, list_after};
ghost use Rattle.write.specs.Written.{as_written};
ghost use Rattle.exports_write.specs.Calls.{Lent, write_out};

use flat::block_of;
use flatplan::{put_count, runs_of};
use flatready::block_ready;
use refusal::Refusal;
use write::{write_lists, write_palette_cu};

// Yes only where the block's list is whole and holds together and the run list has as many runs as are told.
fn in_order(block: &[u16], runs: &[u32], count: usize) -> bool
    ensures { result ≡ true → Lists block.now runs.now count }
{
    count <= 1024 && 4 * count <= runs.len() && block_ready(block)
}

// The writer's answer by way of the records that the lists are.
fn by_records(block: &[u16], runs: &[u32], count: usize, bins: &mut [u8]) -> Result<usize, Refusal>
    ensures { (as_written result ≡ write_of (block_of block.now) (runs_of runs.now count) count (length bins.old)) × (bins.new ≡ list_after (block_of block.now) (runs_of runs.now count) count bins.old) }
{
    write_palette_cu(bins, block_of(block), runs_of(runs, count), count)
}

// The same. A count that no block has is told apart, so that the records stay out of a call in order.
fn written(block: &[u16], runs: &[u32], count: usize, bins: &mut [u8]) -> Result<usize, Refusal>
    ensures { (as_written result ≡ write_of (block_of block.now) (runs_of runs.now count) count (length bins.old)) × (bins.new ≡ list_after (block_of block.now) (runs_of runs.now count) count bins.old) }
{
    if 1024 < count {
        return by_records(block, runs, count, bins);
    }
    if in_order(block, runs, count) {
        return write_lists(bins, block, runs, count);
    }
    by_records(block, runs, count, bins)
}

// The bins of a block and its first `count` runs.
#[unsafe(no_mangle)]
pub extern "C" fn velomitra_write_palette_cu(
    block: &[u16],
    runs: &[u32],
    count: usize,
    bins: &mut [u8],
    used: &mut [usize],
) -> u8
    ensures { (result, record { bins = bins.exit.now; used = used.new })
        ≡ write_out block.now runs.now count (record { bins = bins.entry.now; used = used.old }) }
{
    match written(block, runs, count, bins) {
        Ok(n) => {
            put_count(used, n);
            0
        }
        Err(refusal) => u8::from(refusal),
    }
}
