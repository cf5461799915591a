// The reader of palette entries, component by component.
#![tactic(auto)]

ghost use Rattle.std.specs.Prelude.{◌≡◌, [], ◌≤◌, replicate};
ghost use Rattle.base.specs.Codes.{each_at};
ghost use Rattle.h265.specs.Parse.{bits_at};
ghost use Rattle.syntax.specs.Block.{entries_at};
ghost use Rattle.getentries.specs.Read.{lent, as_numbers, as_entries};

use due::chroma_depth;
use get::BinReader;
use getbits::bits_at;
use refusal::Refused;

// The components of entries.
#[derive(Clone, Copy)]
pub struct Entries {
    pub y: [u16; 64],
    pub cb: [u16; 64],
    pub cr: [u16; 64],
}

// n values of `depth` bits.
fn each_bits(reader: &mut BinReader<'_>, n: usize, depth: u32) -> Result<[u16; 64], Refused>
    requires { (n ≤ 64) × (depth ≤ 16) }
    ensures value { as_numbers n result reader.new.at ≡ each_at bits_at (replicate n depth) reader.old.list.now reader.old.at }
    ensures list { reader.new.list ≡ reader.old.list }
{
    let mut values = [0; 64];
    for value in &mut values[..n] {
        *value = bits_at(reader, depth)? as u16;
    }
    Ok(values)
}

// n entries, component by component.
#[tactic(auto, unfolding(syntax::specs::Block::entries_at))]
pub fn entries_at(
    reader: &mut BinReader<'_>,
    n: usize,
    format: u8,
    luma: u8,
    chroma: u8,
) -> Result<Entries, Refused>
    requires { (n ≤ 64) × (luma ≤ 12) × (chroma ≤ 12) }
    ensures value { as_entries n result reader.new.at ≡ entries_at (lent 0 format luma chroma []) n reader.old.list.now reader.old.at }
    ensures list { reader.new.list ≡ reader.old.list }
{
    let depth = chroma_depth(format, chroma);
    let y = each_bits(reader, n, u32::from(luma))?;
    let cb = each_bits(reader, n, depth)?;
    let cr = each_bits(reader, n, depth)?;
    Ok(Entries { y, cb, cr })
}
