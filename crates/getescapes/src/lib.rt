// The reader of the escape levels, component by component.
#![tactic(auto)]

ghost use Rattle.std.specs.Prelude.{◌≡◌, ◌&&◌, false, ◌^◌, ◌≤◌, ◌<◌, eqb, length, IfOk};
ghost use Rattle.base.specs.Codes.{each_at};
ghost use Rattle.base.specs.Pick.{pick};
ghost use Rattle.due.specs.Due.{due_at};
ghost use Rattle.get.specs.As.{answer_of};
ghost use Rattle.h265.specs.Parse.{bits_at, egk_at, held};
ghost use Rattle.syntax.specs.Block.{dues, level_at};
ghost use Rattle.getescapes.specs.Read.{due_of, as_column, as_levels, all_at};

use due::{chroma_depth, due_at};
use get::BinReader;
use getbits::bits_at;
use getgolomb::held_egk_at;
use refusal::Refused;

// The cells of a block, as its levels go by them: index `e` marks an escape where there are escapes.
#[derive(Clone, Copy)]
pub struct Cells<'a> {
    pub indices: &'a [u8],
    pub e: u8,
    pub escape: bool,
    pub format: u8,
    pub size: usize,
    pub turned: bool,
    pub lossless: bool,
}

// The levels of each component.
#[derive(Clone, Copy)]
pub struct Columns {
    pub y: [u16; 1024],
    pub cb: [u16; 1024],
    pub cr: [u16; 1024],
}

// A level: fixed length where lossless, else Exp-Golomb of order 3 up to 32767.
fn level_at(reader: &mut BinReader<'_>, lossless: bool, depth: u32) -> Result<u32, Refused>
    requires { depth ≤ 16 }
    ensures value { answer_of result reader.new.at ≡ pick lossless (bits_at depth reader.old.list.now reader.old.at) (held reader.old.at 32767 (egk_at 3 reader.old.list.now reader.old.at)) }
    ensures list { reader.new.list ≡ reader.old.list }
{
    if lossless {
        bits_at(reader, depth)
    } else {
        held_egk_at(reader, 3, 32767)
    }
}

// The level of component k at cell i, which has index `index`; 0 where none is sent.
#[tactic(auto, unfolding(syntax::specs::Block::level_at))]
fn cell_at(
    reader: &mut BinReader<'_>,
    cells: &Cells<'_>,
    k: u8,
    i: usize,
    index: u8,
    depth: u32,
) -> Result<u32, Refused>
    requires { (1 ≤ cells.now.size) × (depth ≤ 16) }
    ensures value { answer_of result reader.new.at ≡ level_at cells.now.lossless depth (pick (eqb index cells.now.e && cells.now.escape) (due_at cells.now.format cells.now.size cells.now.turned k i) false) reader.old.list.now reader.old.at }
    ensures list { reader.new.list ≡ reader.old.list }
{
    let here = index == cells.e && cells.escape;
    if here && due_at(k, cells.format, cells.size, cells.turned, i) {
        level_at(reader, cells.lossless, depth)
    } else {
        Ok(0)
    }
}

// The levels of component k at the cells, all 0 where there are no escapes.
fn column_at(
    reader: &mut BinReader<'_>,
    cells: &Cells<'_>,
    k: u8,
    depth: u32,
) -> Result<[u16; 1024], Refused>
    requires { (1 ≤ cells.now.size) × (length cells.now.indices.now ≤ 1024) × (depth ≤ 16) }
    ensures value { as_column (length cells.now.indices.now) result reader.new.at ≡ each_at (level_at cells.now.lossless depth) (dues (due_of cells.now.escape cells.now.format cells.now.size cells.now.turned k) cells.now.e 0 cells.now.indices.now) reader.old.list.now reader.old.at }
    ensures list { reader.new.list ≡ reader.old.list }
{
    let mut values = [0; 1024];
    if !cells.escape {
        return Ok(values);
    }
    for (i, &index) in cells.indices.iter().enumerate() {
        values[i] = cell_at(reader, cells, k, i, index, depth)? as u16;
    }
    Ok(values)
}

// All levels of a block.
#[tactic(auto, unfolding(crate::specs::Read::all_at, crate::specs::Read::third_at))]
pub fn levels_at(
    reader: &mut BinReader<'_>,
    cells: &Cells<'_>,
    luma: u8,
    chroma: u8,
) -> Result<Columns, Refused>
    requires { (1 ≤ cells.now.size) × (length cells.now.indices.now ≤ 1024) × (luma ≤ 12) × (chroma ≤ 12) }
    ensures value { as_levels (length cells.now.indices.now) result reader.new.at ≡ all_at cells.now.escape cells.now.format cells.now.size cells.now.turned cells.now.lossless luma chroma cells.now.e cells.now.indices.now reader.old.list.now reader.old.at }
    ensures list { reader.new.list ≡ reader.old.list }
{
    let depth = chroma_depth(cells.format, chroma);
    let y = column_at(reader, cells, 0, u32::from(luma))?;
    let cb = column_at(reader, cells, 1, depth)?;
    let cr = column_at(reader, cells, 2, depth)?;
    Ok(Columns { y, cb, cr })
}
