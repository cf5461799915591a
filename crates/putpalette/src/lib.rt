// The writer of a block's palette onto a lent bin list, from the block's list of numbers, as crate flat lays it out: reuse runs, signalled entries and the escape flag.
#![tactic(auto)]

ghost use Rattle.std.specs.Prelude.{◌≡◌, [], ◌+◌, ◌-◌, ◌*◌, ◌^◌, ◌≤◌, ◌<◌, ltb, length, take, drop, replicate};
ghost use Rattle.base.specs.Codes.{each_bins, when_bins};
ghost use Rattle.base.specs.Laid.{Laid};
ghost use Rattle.flat.specs.Flat.{block_of};
ghost use Rattle.h265.specs.Strings.{bit, bin_of, bits};
ghost use Rattle.syntax.specs.Block.{column, signalled_bins, entries_bins};
ghost use Rattle.syntax.specs.Records.{call_of};
ghost use Rattle.putpalette.specs.Palette.{part, head_of, Headed};

use due::chroma_depth;
use flat::{byte, flags_of};
use put::{put_bin, put_bits};
use putgolomb::put_egk;
use putreuse::put_reuse;

// Component k of the entries from `from` to `to`.
fn put_column(
    list: &mut [u8],
    at: usize,
    block: &[u16],
    from: usize,
    to: usize,
    k: usize,
    depth: u32,
) -> usize
    requires { (4432 ≤ length block.now) × (from ≤ to) × (to ≤ 64) × (k ≤ 2) × (depth ≤ 32) × (at < 2 ^ 62) }
    ensures laid { Laid list.old at (each_bins bits (replicate (to - from) depth) (column (part k) (drop from (take to (block_of block.now).palette)))) result list.new }
    ensures near { result ≤ at + 2048 }
{
    let mut p = at;
    for i in from..to {
        p = put_bits(list, p, block[16 + 3 * i + k] as u32, depth);
    }
    p
}

// The entries from `from` to `to`, component by component.
fn put_entries(list: &mut [u8], at: usize, block: &[u16], from: usize, to: usize) -> usize
    requires { Headed block.now × (from ≤ to) × (to ≤ 64) × (at < 2 ^ 61) }
    ensures laid { Laid list.old at (entries_bins (call_of 64 [] (block_of block.now)) (to - from) (drop from (take to (block_of block.now).palette))) result list.new }
    ensures near { result ≤ at + 6144 }
{
    let luma = byte(block[2]) as u32;
    let d = chroma_depth(byte(block[1]), byte(block[3]));
    let p = put_column(list, at, block, from, to, 0, luma);
    let q = put_column(list, p, block, from, to, 1, d);
    put_column(list, q, block, from, to, 2, d)
}

// num_signalled_palette_entries, where the limit leaves room.
#[tactic(auto, unfolding(syntax::specs::Block::signalled_bins), using(base::specs::Laid::laid_none))]
fn put_signalled(list: &mut [u8], at: usize, limit: u32, reused: u32, new: u32) -> usize
    requires { (new ≤ 64) × (at < 2 ^ 62) }
    ensures laid { Laid list.old at (signalled_bins limit reused new) result list.new }
    ensures near { result ≤ at + 33 }
{
    if reused < limit {
        return put_egk(list, at, 0, new);
    }
    at
}

// The byte of the escape flag.
fn escape_byte(escape: bool) -> u8
    ensures { result ≡ 0 * 2 + bit escape }
{
    u8::from(escape)
}

// The escape flag, not sent for an empty palette.
#[tactic(auto, using(base::specs::Laid::laid_none))]
fn put_escape(list: &mut [u8], at: usize, size: usize, escape: bool) -> usize
    requires { at < 2 ^ 62 }
    ensures laid { Laid list.old at (when_bins (ltb 0 size) (bin_of 0) escape) result list.new }
    ensures near { result ≤ at + 1 }
{
    if 0 < size {
        return put_bin(list, at, escape_byte(escape));
    }
    at
}

// The palette, under the limit 64: its first entries are those that the flags mark.
pub fn put_palette(list: &mut [u8], at: usize, block: &[u16]) -> usize
    requires { Headed block.now × (at < 2 ^ 60) }
    ensures laid { Laid list.old at (head_of (block_of block.now)) result list.new }
    ensures near { result ≤ at + 16384 }
{
    let flags = flags_of(block);
    let size = block[5] as usize;
    let reused = size - block[7] as usize;
    let p = put_reuse(list, at, 64, &flags[..block[6] as usize]);
    let q = put_signalled(list, p, 64, reused as u32, (size - reused) as u32);
    let r = put_entries(list, q, block, reused, size);
    put_escape(list, r, size, block[8] == 1)
}
