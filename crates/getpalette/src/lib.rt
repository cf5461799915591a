// The reader of a block's palette: reuse runs, signalled entries and the escape flag.
#![tactic(auto)]

ghost use Rattle.std.specs.Prelude.{◌≡◌, true, false, ◌++◌, ◌+◌, ◌-◌, ◌≤◌, ◌<◌, ltb, length, take, drop, replicate};
ghost use Rattle.base.specs.Codes.{when_at};
ghost use Rattle.base.specs.Lists.{padded};
ghost use Rattle.get.specs.As.{answer_of};
ghost use Rattle.getentries.specs.Read.{lent};
ghost use Rattle.h265.specs.Parse.{bin_at};
ghost use Rattle.h265.specs.Reuse.{trues};
ghost use Rattle.model.specs.Domain.{no_color};
ghost use Rattle.syntax.specs.Block.{entries, chosen, signalled_at, palette_at};
ghost use Rattle.getpalette.specs.Read.{as_palette, palette_read, fresh_at};

use get::BinReader;
use getentries::entries_at;
use getgolomb::held_egk_at;
use getreuse::{Reuse, reuse_at};
use model::Color;
use refusal::Refused;

// Flags of the predictor's entries, the number of signalled entries, that of all entries, the entries and the escape flag. Stays an array with a count: no heap.
#[derive(Clone, Copy)]
pub struct PaletteRead {
    pub flags: [bool; 128],
    pub new: usize,
    pub size: usize,
    pub palette: [Color; 64],
    pub escape: bool,
}

// num_signalled_palette_entries, where the limit leaves room.
#[tactic(auto, unfolding(syntax::specs::Block::signalled_at))]
fn signalled_at(reader: &mut BinReader<'_>, limit: u32, reused: u32) -> Result<u32, Refused>
    ensures value { answer_of result reader.new.at ≡ signalled_at limit reused reader.old.list.now reader.old.at }
    ensures list { reader.new.list ≡ reader.old.list }
{
    if reused < limit {
        held_egk_at(reader, 0, limit - reused)
    } else {
        Ok(0)
    }
}

// The escape flag; on where it is not sent.
fn escape_at(reader: &mut BinReader<'_>, size: u32) -> Result<bool, Refused>
    ensures value { answer_of result reader.new.at ≡ when_at (ltb 0 size) true (bin_at 0) reader.old.list.now reader.old.at }
    ensures list { reader.new.list ≡ reader.old.list }
{
    if 0 < size { reader.bin(0) } else { Ok(true) }
}

// The entries that the flags mark.
fn marked(flags: &[bool; 128], old: &[Color]) -> [Color; 64]
    requires { (length old.now ≤ 128) × (trues (take (length old.now) flags.now) ≤ 64) }
    ensures { (result ≡ padded 64 no_color (chosen (take (length old.now) flags.now) old.now)) × (length (chosen (take (length old.now) flags.now) old.now) ≡ trues (take (length old.now) flags.now)) }
{
    let mut out = [Color { y: 0, cb: 0, cr: 0 }; 64];
    let mut k = 0;
    for (i, color) in old.iter().enumerate() {
        if flags[i] {
            out[k] = *color;
            k += 1;
        }
    }
    out
}

// A palette of `from` entries, and n more behind them.
fn with_fresh(
    first: [Color; 64],
    from: usize,
    n: usize,
    y: &[u16; 64],
    cb: &[u16; 64],
    cr: &[u16; 64],
) -> [Color; 64]
    requires { (from + n ≤ 64) × (drop from first ≡ drop from (replicate 64 no_color)) }
    ensures { result ≡ padded 64 no_color (take from first ++ entries (take n y.now) (take n cb.now) (take n cr.now)) }
{
    let mut out = first;
    for i in 0..n {
        out[from + i] = Color {
            y: y[i],
            cb: cb[i],
            cr: cr[i],
        };
    }
    out
}

// What follows the reuse runs.
fn fresh_at(
    reader: &mut BinReader<'_>,
    limit: u32,
    format: u8,
    luma: u8,
    chroma: u8,
    old: &[Color],
    reuse: &Reuse,
) -> Result<PaletteRead, Refused>
    requires { (limit ≤ 64) × (luma ≤ 12) × (chroma ≤ 12) × (length old.now ≤ 128) × (reuse.now.reused ≡ trues (take (length old.now) reuse.now.flags)) × (reuse.now.reused ≤ limit) × (reuse.now.flags ≡ padded 128 false (take (length old.now) reuse.now.flags)) }
    ensures value { as_palette result reader.new.at ≡ palette_read old.now (fresh_at (lent limit format luma chroma old.now) (take (length old.now) reuse.now.flags) reader.old.list.now reader.old.at) }
    ensures list { reader.new.list ≡ reader.old.list }
{
    let new = signalled_at(reader, limit, reuse.reused)?;
    let n = new as usize;
    let fresh = entries_at(reader, n, format, luma, chroma)?;
    let escape = escape_at(reader, reuse.reused + new)?;
    let from = reuse.reused as usize;
    let first = marked(&reuse.flags, old);
    Ok(PaletteRead {
        flags: reuse.flags,
        new: n,
        size: from + n,
        palette: with_fresh(first, from, n, &fresh.y, &fresh.cb, &fresh.cr),
        escape,
    })
}

// The palette of a block, with the entries of a predictor.
pub fn palette_at(
    reader: &mut BinReader<'_>,
    limit: u32,
    format: u8,
    luma: u8,
    chroma: u8,
    old: &[Color],
) -> Result<PaletteRead, Refused>
    requires { (limit ≤ 64) × (luma ≤ 12) × (chroma ≤ 12) × (length old.now ≤ 128) }
    ensures value { as_palette result reader.new.at ≡ palette_read old.now (palette_at (lent limit format luma chroma old.now) reader.old.list.now reader.old.at) }
    ensures list { reader.new.list ≡ reader.old.list }
{
    let reuse = reuse_at(reader, limit, old.len() as u32)?;
    fresh_at(reader, limit, format, luma, chroma, old, &reuse)
}
