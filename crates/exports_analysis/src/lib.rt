// Analysis for other languages, nothing required. Blocks, predictors, configurations and geometries are lists of numbers, as crate flat lays them out; the colour counter is three, as crate flatcounter does. Each answers a refusal's number and leaves the block lent to it as it was, or answers 0. The counter moves as document 01 says, on 13 too.
#![tactic(auto)]

ghost use Rattle.std.specs.Prelude.{◌≡◌};
ghost use Rattle.flatchoose.specs.Choose.{Lent};
ghost use Rattle.exports_analysis.specs.Calls.{analyze_out, analyze_with_out};

use flat::{config_of, source_of};
use flatanalyse::{analyze_cells, tolerance_of};
use refusal::code;

// The block with a palette for its samples at a tolerance lent.
#[unsafe(no_mangle)]
pub extern "C" fn velomitra_analyze_with(
    luma: &[u16],
    cb: &[u16],
    cr: &[u16],
    config: &[i32],
    source: &[usize],
    predictor: &[u16],
    tol: u64,
    keys: &mut [u64],
    entry: &mut [u16],
    stamp: &mut [u32],
    block: &mut [u16],
) -> u8
    ensures { (result, record { keys = keys.exit.now; entry = entry.new; stamp = stamp.new; block = block.new })
        ≡ analyze_with_out luma.now cb.now cr.now config.now source.now predictor.now tol
        (record { keys = keys.entry.now; entry = entry.old; stamp = stamp.old; block = block.old }) }
{
    let c = config_of(config);
    let g = source_of(source);
    let mut cells = [0; 1024];
    if let Err(refusal) = source::fetch_block(luma, cb, cr, c, g, &mut cells) {
        return u8::from(refusal);
    }
    code(analyze_cells(&cells, c, g.size, predictor, tol, keys, entry, stamp, block))
}

// The block with a palette for its samples at the luma QP's tolerance.
#[unsafe(no_mangle)]
pub extern "C" fn velomitra_analyze_palette(
    luma: &[u16],
    cb: &[u16],
    cr: &[u16],
    config: &[i32],
    source: &[usize],
    predictor: &[u16],
    keys: &mut [u64],
    entry: &mut [u16],
    stamp: &mut [u32],
    block: &mut [u16],
) -> u8
    ensures { (result, record { keys = keys.exit.now; entry = entry.new; stamp = stamp.new; block = block.new })
        ≡ analyze_out luma.now cb.now cr.now config.now source.now predictor.now
        (record { keys = keys.entry.now; entry = entry.old; stamp = stamp.old; block = block.old }) }
{
    let tol = tolerance_of(config_of(config));
    velomitra_analyze_with(
        luma, cb, cr, config, source, predictor, tol, keys, entry, stamp, block,
    )
}
