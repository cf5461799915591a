// A palette block with its runs, written onto a lent bin list from the lists of numbers that crates flat and flatplan lay them in. Bins are laid on a list of their own first, so that their number is known before the caller's list is touched; onto the caller's straight where it has room for any such block.
#![tactic(auto)]

ghost use Rattle.std.specs.Prelude.{◌≡◌, true, ◌+◌, ◌-◌, ◌*◌, ◌≤◌, length, take};
ghost use Rattle.base.specs.Laid.{Laid};
ghost use Rattle.flat.specs.Flat.{number, block_of};
ghost use Rattle.flatplan.specs.Flat.{runs_of, first_of};
ghost use Rattle.model.specs.Whole.{holds};
ghost use Rattle.write.specs.Write.{bins_of, runs_hold, write_of, list_after};
ghost use Rattle.write.specs.Lists.{Lists};
ghost use Rattle.write.specs.Written.{as_written};

use extent::{area, greatest_index};
use flatplan::lay_runs;
use layflat::lay_block;
use model::{PaletteCu, PaletteRun};
use putescapes::put_escapes;
use putmap::put_map;
use putpalette::put_palette;
use refusal::Refusal;
use rules::replays_to;
use whole::{block_size_in, holds_together};

// The test for refusal 8: with M = 0 the list is ignored.
fn runs_hold(block: &[u16], runs: &[u32], count: usize) -> bool
    requires { Lists block.now runs.now count }
    ensures { result ≡ runs_hold (block_of block.now) (runs_of runs.now count) count }
{
    let m = greatest_index(block[5] as usize, block[8] == 1);
    if m == 0 {
        return true;
    }
    if 1024 < count {
        return false;
    }
    let size = block[0] as usize;
    replays_to(block, 336, size, area(size), m as u32, runs, count)
}

// The block's bins: palette, index map, escape levels.
fn put_block(list: &mut [u8], block: &[u16], runs: &[u32], count: usize) -> usize
    requires { Lists block.now runs.now count × (runs_hold (block_of block.now) (runs_of runs.now count) count ≡ true) }
    ensures laid { Laid list.old 0 (bins_of (block_of block.now) (first_of runs.now count)) result list.new }
    ensures short { (number block.now 8 ≡ 1 → ⊥) → result ≤ 16451 + 97 * count }
{
    let size = block[0] as usize;
    let escape = block[8] == 1;
    let turned = block[9] == 1;
    let n = area(size);
    let m = greatest_index(block[5] as usize, escape);
    let p = put_palette(list, 0, block);
    let q = put_map(
        list,
        p,
        size as u32,
        n as u32,
        m as u32,
        escape,
        turned,
        runs,
        count,
    );
    put_escapes(list, q, block, n)
}

// Yes only where a block without escapes has room for its bins, however long its codes are.
fn roomy(block: &[u16], count: usize, room: usize) -> bool
    requires { 4432 ≤ length block.now }
    ensures { result ≡ true → (number block.now 8 ≡ 1 → ⊥) × (16451 + 97 * count ≤ room) }
{
    block[8] != 1 && count <= 1024 && 16451 + 97 * count <= room
}

// The number of bins of a block that holds together and its first `count` runs, with refusals 8 and 9.
pub fn write_lists(
    list: &mut [u8],
    block: &[u16],
    runs: &[u32],
    count: usize,
) -> Result<usize, Refusal>
    requires { Lists block.now runs.now count }
    ensures { (as_written result ≡ write_of (block_of block.now) (runs_of runs.now count) count (length list.old)) × (list.new ≡ list_after (block_of block.now) (runs_of runs.now count) count list.old) }
{
    if !runs_hold(block, runs, count) {
        return Err(Refusal::Runs);
    }
    if roomy(block, count, list.len()) {
        return Ok(put_block(list, block, runs, count));
    }
    let mut bytes = [0u8; 4096];
    let n = put_block(&mut bytes[..4096], block, runs, count);
    if list.len() < n {
        return Err(Refusal::Room);
    }
    if n <= 4096 {
        list[..n].copy_from_slice(&bytes[..n]);
        return Ok(n);
    }
    Ok(put_block(list, block, runs, count))
}

// A block that holds together as a list of numbers, which is that block again.
fn flat_block(cu: PaletteCu) -> [u16; 4432]
    requires { holds 64 cu ≡ true }
    ensures { block_of result ≡ cu }
{
    let mut block = [0u16; 4432];
    lay_block(cu, &mut block[..4432]);
    block
}

// The number of bins of a block and its first `count` runs, laid from the list's start on; with document 01's refusals 2, 7, 8 and 9.
pub fn write_palette_cu(
    list: &mut [u8],
    cu: PaletteCu,
    runs: [PaletteRun; 1024],
    count: usize,
) -> Result<usize, Refusal>
    ensures { (as_written result ≡ write_of cu runs count (length list.old)) × (list.new ≡ list_after cu runs count list.old) }
{
    if !block_size_in(cu) {
        return Err(Refusal::Geometry);
    }
    if !holds_together(64, cu) {
        return Err(Refusal::Block);
    }
    let block = flat_block(cu);
    let mut numbers = [0u32; 4096];
    lay_runs(runs, count, &mut numbers[..4096]);
    write_lists(list, &block, &numbers, count)
}
