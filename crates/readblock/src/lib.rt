// The reader of a palette block and its runs from a list of bins.
#![tactic(auto)]

ghost use Rattle.std.specs.Prelude.{◌≡◌, Result, Ok, [], ◌+◌, ◌-◌, ◌*◌, ◌≤◌, length, take};
ghost use Rattle.base.specs.Lists.{padded};
ghost use Rattle.getpalette.specs.Read.{placed_at};
ghost use Rattle.getruns.specs.As.{RestBlank};
ghost use Rattle.model.specs.Whole.{no_levels};
ghost use Rattle.syntax.specs.Block.{colours, cells_of, read_block};
ghost use Rattle.syntax.specs.MapLaws.{MapOk};
ghost use Rattle.readblock.specs.Read.{call_of, zip_levels, as_read, answer_of};
ghost use Rattle.readblock.specs.Made.{pal_of, map_of, top_of, levels_to, rest_at, made_with, made_of};

use extent::{area, greatest_index};
use get::BinReader;
use getescapes::{Cells, levels_at};
use getmap::{MapRead, map_at};
use getpalette::{PaletteRead, palette_at};
use model::{Color, Levels, PaletteCu, PaletteRun};
use refusal::Refused;
use replay::replay_runs;

// What is known of a block beside its bins.
#[derive(Clone, Copy)]
pub struct BlockFormat {
    pub size: usize,
    pub format: u8,
    pub luma: u8,
    pub chroma: u8,
    pub lossless: bool,
}

// The block, its first `count` runs of an array that is blank past them, and the number of bins used. Stays an array with a count: no heap.
#[derive(Clone, Copy)]
pub struct BlockRead {
    pub cu: PaletteCu,
    pub runs: [PaletteRun; 1024],
    pub count: usize,
    pub used: usize,
}

// The first n levels of three components, and 0 past them.
fn levels_of(n: usize, y: &[u16; 1024], cb: &[u16; 1024], cr: &[u16; 1024]) -> [Levels; 1024]
    requires { n ≤ 1024 }
    ensures { result ≡ padded 1024 no_levels (zip_levels (take n y.now) (take n cb.now) (take n cr.now)) }
{
    let mut out = [Levels { y: 0, cb: 0, cr: 0 }; 1024];
    for i in 0..n {
        out[i] = Levels {
            y: y[i],
            cb: cb[i],
            cr: cr[i],
        };
    }
    out
}

// The cells of a map's runs; all 0 where there are none.
fn cells_of(size: usize, n: usize, m: u8, map: &MapRead) -> [u8; 1024]
    requires { (1 ≤ size) × (n ≤ 1024) × (m ≤ 64) × (map.now.count ≤ 1024) × MapOk size n m (map_of map.now) }
    ensures { result ≡ padded 1024 0 (cells_of size n m (map_of map.now)) }
{
    if m == 0 {
        return [0; 1024];
    }
    replay_runs(size, n, &map.runs[..map.count])
}

// The block of what was read.
#[tactic(auto, unfolding(crate::specs::Read::as_read, crate::specs::Made::made_with))]
fn made(
    block: BlockFormat,
    count: usize,
    palette: &PaletteRead,
    map: &MapRead,
    cells: [u8; 1024],
    escapes: [Levels; 1024],
    used: usize,
) -> BlockRead
    ensures { as_read (Ok result) ≡ made_with (call_of block []) count (placed_at palette.now 0) map.now.turned cells escapes map.now.runs map.now.count used }
{
    let cu = PaletteCu {
        size: block.size,
        chroma_idc: block.format,
        bd_luma: block.luma,
        bd_chroma: block.chroma,
        lossless: block.lossless,
        palette: palette.palette,
        palette_size: palette.size,
        reused: palette.flags,
        pred_size: count,
        num_signaled: palette.new,
        escape_present: palette.escape,
        transpose: map.turned,
        indices: cells,
        escapes,
        sse: 0,
        tolerance: 0,
    };
    BlockRead {
        cu,
        runs: map.runs,
        count: map.count,
        used,
    }
}

// What follows the index map: the levels, and the block.
fn after_map(
    reader: &mut BinReader<'_>,
    block: BlockFormat,
    count: usize,
    palette: &PaletteRead,
    map: &MapRead,
    n: usize,
    m: u8,
) -> Result<BlockRead, Refused>
    requires { (1 ≤ block.size) × (n ≡ block.size * block.size) × (n ≤ 1024) × (m ≡ top_of (placed_at palette.now 0)) × (m ≤ 64) × (block.luma ≤ 12) × (block.chroma ≤ 12) × (palette.now.size ≤ 64) × (map.now.count ≤ 1024) × RestBlank map.now.count map.now.runs × MapOk block.size n m (map_of map.now) × (colours (pal_of count (placed_at palette.now 0)) ≡ palette.now.size) }
    ensures { as_read result ≡ made_of (call_of block []) count (placed_at palette.now 0) (levels_to (call_of block []) (pal_of count (placed_at palette.now 0)) (map_of map.now) reader.old.list.now reader.old.at) }
{
    let indices = cells_of(block.size, n, m, map);
    let cells = Cells {
        indices: &indices[..n],
        e: palette.size as u8,
        escape: palette.escape,
        format: block.format,
        size: block.size,
        turned: map.turned,
        lossless: block.lossless,
    };
    let levels = levels_at(reader, &cells, block.luma, block.chroma)?;
    let escapes = levels_of(n, &levels.y, &levels.cb, &levels.cr);
    Ok(made(block, count, palette, map, indices, escapes, reader.at))
}

// What follows the palette: the index map, then the rest.
fn after_palette(
    reader: &mut BinReader<'_>,
    block: BlockFormat,
    count: usize,
    palette: &PaletteRead,
) -> Result<BlockRead, Refused>
    requires { (1 ≤ block.size) × (block.size ≤ 32) × (block.luma ≤ 12) × (block.chroma ≤ 12) × (palette.now.size ≤ 64) × (colours (pal_of count (placed_at palette.now 0)) ≡ palette.now.size) }
    ensures { as_read result ≡ made_of (call_of block []) count (placed_at palette.now 0) (rest_at (call_of block []) (pal_of count (placed_at palette.now 0)) reader.old.list.now reader.old.at) }
{
    let n = area(block.size);
    let m = greatest_index(palette.size, palette.escape);
    let map = map_at(
        reader,
        block.size as u32,
        n as u32,
        u32::from(m),
        palette.escape,
    )?;
    after_map(reader, block, count, palette, &map, n, m)
}

// A block and its runs, with the entries of a predictor.
pub fn read_block(list: &[u8], block: BlockFormat, old: &[Color]) -> Result<BlockRead, Refused>
    requires { (1 ≤ block.size) × (block.size ≤ 32) × (block.luma ≤ 12) × (block.chroma ≤ 12) × (length old.now ≤ 128) }
    ensures { as_read result ≡ answer_of (call_of block old.now) (read_block (call_of block old.now) list.now 0) }
{
    let mut reader = BinReader { list, at: 0 };
    let palette = palette_at(&mut reader, 64, block.format, block.luma, block.chroma, old)?;
    after_palette(&mut reader, block, old.len(), &palette)
}
