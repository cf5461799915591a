// The readers of single codes as C calls them: each export states the contract of the function of crate `exports_get` that it calls.
#![tactic(auto)]

ghost use Rattle.std.specs.Prelude.{◌≡◌, length};
ghost use Rattle.std.proofs.lemmas.List.Edits.{sets};
ghost use Rattle.exports_get.specs.Laid.{bin_out, bits_out, tb_out, egk_out, held_out, count_out, run_out, reuse_out, flags_out};

// A bin of class `class`, 0 or 1.
#[unsafe(no_mangle)]
pub extern "C" fn velomitra_bin_at(list: &[u8], at: usize, class: u8, out: &mut [u64])
    ensures { out.new ≡ sets out.old 0 (bin_out class list.now at) }
{
    exports_get::velomitra_bin_at(list, at, class, out)
}

// A value of n bits.
#[unsafe(no_mangle)]
pub extern "C" fn velomitra_bits_at(list: &[u8], at: usize, n: u32, out: &mut [u64])
    ensures { out.new ≡ sets out.old 0 (bits_out n list.now at) }
{
    exports_get::velomitra_bits_at(list, at, n, out)
}

// Truncated binary over n values.
#[unsafe(no_mangle)]
pub extern "C" fn velomitra_tb_at(list: &[u8], at: usize, n: u32, out: &mut [u64])
    ensures { out.new ≡ sets out.old 0 (tb_out n list.now at) }
{
    exports_get::velomitra_tb_at(list, at, n, out)
}

// Exp-Golomb of an order.
#[unsafe(no_mangle)]
pub extern "C" fn velomitra_egk_at(list: &[u8], at: usize, order: u32, out: &mut [u64])
    ensures { out.new ≡ sets out.old 0 (egk_out order list.now at) }
{
    exports_get::velomitra_egk_at(list, at, order, out)
}

// Exp-Golomb of an order, of values up to `top`.
#[unsafe(no_mangle)]
pub extern "C" fn velomitra_held_egk_at(
    list: &[u8],
    at: usize,
    order: u32,
    top: u32,
    out: &mut [u64],
)
    ensures { out.new ≡ sets out.old 0 (held_out order top list.now at) }
{
    exports_get::velomitra_held_egk_at(list, at, order, top, out)
}

// The index count, less 1, where M is m.
#[unsafe(no_mangle)]
pub extern "C" fn velomitra_count_at(list: &[u8], at: usize, m: u32, out: &mut [u64])
    ensures { out.new ≡ sets out.old 0 (count_out m list.now at) }
{
    exports_get::velomitra_count_at(list, at, m, out)
}

// A run's further cells, of at most `longest`.
#[unsafe(no_mangle)]
pub extern "C" fn velomitra_run_at(
    list: &[u8],
    at: usize,
    longest: u32,
    above: bool,
    sent: u32,
    out: &mut [u64],
)
    ensures { out.new ≡ sets out.old 0 (run_out longest above sent list.now at) }
{
    exports_get::velomitra_run_at(list, at, longest, above, sent, out)
}

// The reuse runs of as many predictor entries as `flags` has: the flags, off on a refusal, and the number reused.
#[unsafe(no_mangle)]
pub extern "C" fn velomitra_reuse_at(
    list: &[u8],
    at: usize,
    limit: u32,
    flags: &mut [bool],
    out: &mut [u64],
)
    ensures flags { flags.new ≡ flags_out limit list.now at flags.old }
    ensures laid { out.new ≡ sets out.old 0 (reuse_out limit (length flags.old) list.now at) }
{
    exports_get::velomitra_reuse_at(list, at, limit, flags, out)
}
