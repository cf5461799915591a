// Analysis as C calls it: each export states the contract of the function of crate `exports_analysis` that it calls.
#![tactic(auto)]

ghost use Rattle.std.specs.Prelude.{◌≡◌};
ghost use Rattle.exports_analysis.specs.Calls.{analyze_out, analyze_with_out};

// The block with a palette for its samples at a tolerance lent.
#[unsafe(no_mangle)]
pub extern "C" fn velomitra_analyze_with(
    luma: &[u16],
    cb: &[u16],
    cr: &[u16],
    config: &[i32],
    source: &[usize],
    predictor: &[u16],
    tol: u64,
    keys: &mut [u64],
    entry: &mut [u16],
    stamp: &mut [u32],
    block: &mut [u16],
) -> u8
    ensures { (result, record { keys = keys.exit.now; entry = entry.new; stamp = stamp.new; block = block.new })
        ≡ analyze_with_out luma.now cb.now cr.now config.now source.now predictor.now tol
        (record { keys = keys.entry.now; entry = entry.old; stamp = stamp.old; block = block.old }) }
{
    exports_analysis::velomitra_analyze_with(
        luma, cb, cr, config, source, predictor, tol, keys, entry, stamp, block,
    )
}

// The block with a palette for its samples at the luma QP's tolerance.
#[unsafe(no_mangle)]
pub extern "C" fn velomitra_analyze_palette(
    luma: &[u16],
    cb: &[u16],
    cr: &[u16],
    config: &[i32],
    source: &[usize],
    predictor: &[u16],
    keys: &mut [u64],
    entry: &mut [u16],
    stamp: &mut [u32],
    block: &mut [u16],
) -> u8
    ensures { (result, record { keys = keys.exit.now; entry = entry.new; stamp = stamp.new; block = block.new })
        ≡ analyze_out luma.now cb.now cr.now config.now source.now predictor.now
        (record { keys = keys.entry.now; entry = entry.old; stamp = stamp.old; block = block.old }) }
{
    exports_analysis::velomitra_analyze_palette(
        luma, cb, cr, config, source, predictor, keys, entry, stamp, block,
    )
}
