// The writer of a block as C calls it: each export states the contract of the function of crate `exports_write` that it calls.
#![tactic(auto)]

ghost use Rattle.std.specs.Prelude.{◌≡◌};
ghost use Rattle.exports_write.specs.Calls.{write_out};

// The bins of a block and its first `count` runs.
#[unsafe(no_mangle)]
pub extern "C" fn velomitra_write_palette_cu(
    block: &[u16],
    runs: &[u32],
    count: usize,
    bins: &mut [u8],
    used: &mut [usize],
) -> u8
    ensures { (result, record { bins = bins.exit.now; used = used.new })
        ≡ write_out block.now runs.now count (record { bins = bins.entry.now; used = used.old }) }
{
    exports_write::velomitra_write_palette_cu(block, runs, count, bins, used)
}
