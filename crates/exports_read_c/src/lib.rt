// The reader of a block as C calls it: each export states the contract of the function of crate `exports_read` that it calls.
#![tactic(auto)]

ghost use Rattle.std.specs.Prelude.{◌≡◌};
ghost use Rattle.exports_read.specs.Calls.{read_out};

// The block and the runs at the start of a list of bins; the run list has room for a quarter of its numbers.
#[unsafe(no_mangle)]
pub extern "C" fn velomitra_read_palette_cu(
    bins: &[u8],
    size: usize,
    format: u8,
    luma: u8,
    chroma: u8,
    lossless: bool,
    predictor: &[u16],
    block: &mut [u16],
    runs: &mut [u32],
    count: &mut [usize],
    used: &mut [usize],
    place: &mut [usize],
) -> u8
    ensures { (result, record { memory = record { block = block.exit.now; runs = runs.new; count = count.new; used = used.new }; place = place.new })
        ≡ read_out size format luma chroma lossless predictor.now bins.now (record { memory = record { block = block.entry.now; runs = runs.old; count = count.old; used = used.old }; place = place.old }) }
{
    exports_read::velomitra_read_palette_cu(
        bins, size, format, luma, chroma, lossless, predictor, block, runs, count, used, place,
    )
}
