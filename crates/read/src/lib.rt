// The reader of a palette block, with its refusals.
#![tactic(auto)]

ghost use Rattle.std.specs.Prelude.{◌≡◌, ◌*◌, ◌≤◌, length, IfErr};
ghost use Rattle.readblock.specs.Read.{as_read};
ghost use Rattle.read.specs.Reading.{formats_in, sizes_in, read_refusal, tested, read_of};

use domain::{depth_in, even_in, predictor_in, size_in};
use extent::area;
use model::PalettePredictor;
use readblock::{BlockFormat, BlockRead, read_block};
use refusal::{Refusal, Refused};

// The test for refusal 1.
#[tactic(auto, unfolding(crate::specs::Reading::formats_in))]
fn formats_in(format: u8, luma: u8, chroma: u8) -> bool
    ensures { result ≡ formats_in format luma chroma }
{
    format <= 3 && depth_in(luma) && depth_in(chroma)
}

// The test for refusal 2.
#[tactic(auto, unfolding(crate::specs::Reading::sizes_in))]
fn sizes_in(format: u8, size: usize) -> bool
    ensures { result ≡ sizes_in format size }
{
    size_in(size) && even_in(format, size)
}

// The first refusal that needs no bins, at place 0.
#[tactic(auto, unfolding(crate::specs::Reading::read_refusal))]
fn refusal_of(
    size: usize,
    format: u8,
    luma: u8,
    chroma: u8,
    p: PalettePredictor,
    room: usize,
) -> Result<(), Refused>
    ensures number { tested result ≡ read_refusal size format luma chroma p room }
    ensures place { IfErr result (λ e. e.place ≡ 0) }
{
    if !formats_in(format, luma, chroma) {
        return Err(Refusal::Config.at(0));
    }
    if !sizes_in(format, size) {
        return Err(Refusal::Geometry.at(0));
    }
    if !predictor_in(format, luma, chroma, p) {
        return Err(Refusal::Predictor.at(0));
    }
    if room < area(size) {
        return Err(Refusal::Room.at(0));
    }
    Ok(())
}

// A block and its runs from the start of a list of bins, or a refusal and its place; `room` is the length of the lent run list.
pub fn read_palette_cu(
    bins: &[u8],
    size: usize,
    format: u8,
    luma: u8,
    chroma: u8,
    lossless: bool,
    p: PalettePredictor,
    room: usize,
) -> Result<BlockRead, Refused>
    ensures { as_read result ≡ read_of size format luma chroma lossless p room bins.now }
{
    refusal_of(size, format, luma, chroma, p, room)?;
    let block = BlockFormat {
        size,
        format,
        luma,
        chroma,
        lossless,
    };
    read_block(bins, block, &p.entries[..p.size])
}
