// The leaves as C calls them: each export states the contract of the function of crate `exports` that it calls.
#![tactic(auto)]

ghost use Rattle.std.specs.Prelude.{◌≡◌, ◌*◌, ◌%◌, ◌^◌};
ghost use Rattle.quant.specs.Quant.{tolerance_of, dist};
ghost use Rattle.exports.specs.Numbers.{scan_pos, scan_pos_inv, place_above, step_out, dequant_out, quantize_out};

// The cell at scan place i of a block of side size: row × 65536 + column.
#[unsafe(no_mangle)]
pub extern "C" fn velomitra_scan_pos(i: usize, size: usize) -> u64
    ensures { result ≡ scan_pos i size }
{
    exports::velomitra_scan_pos(i, size)
}

// The scan place of a cell of a block of side size.
#[unsafe(no_mangle)]
pub extern "C" fn velomitra_scan_pos_inv(col: usize, row: usize, size: usize) -> u64
    ensures { result ≡ scan_pos_inv col row size }
{
    exports::velomitra_scan_pos_inv(col, row, size)
}

// The scan place of the cell above scan place i of a block of side size.
#[unsafe(no_mangle)]
pub extern "C" fn velomitra_place_above(i: usize, size: usize) -> u64
    ensures { result ≡ place_above i size }
{
    exports::velomitra_place_above(i, size)
}

// The step of a QP.
#[unsafe(no_mangle)]
pub extern "C" fn velomitra_step(qp: i32) -> u64
    ensures { result ≡ step_out qp }
{
    exports::velomitra_step(qp)
}

// The tolerance at a step.
#[unsafe(no_mangle)]
pub extern "C" fn velomitra_tolerance(lossless: bool, step: u64) -> u64
    ensures { result ≡ tolerance_of lossless step }
{
    exports::velomitra_tolerance(lossless, step)
}

// The distance of two colours, each y + 2^16 u + 2^32 v.
#[unsafe(no_mangle)]
pub extern "C" fn velomitra_distance(a: u64, b: u64) -> u64
    ensures { result ≡ dist a b }
{
    exports::velomitra_distance(a, b)
}

// The value of an escape level.
#[unsafe(no_mangle)]
pub extern "C" fn velomitra_dequant_escape(lossless: bool, step: u64, most: u64, level: i32) -> u64
    ensures { result ≡ dequant_out lossless step most level }
{
    exports::velomitra_dequant_escape(lossless, step, most, level)
}

// The escape level of a value.
#[unsafe(no_mangle)]
pub extern "C" fn velomitra_quantize_escape(lossless: bool, step: u64, most: u64, v: u64) -> u64
    ensures { result ≡ quantize_out lossless step most v }
{
    exports::velomitra_quantize_escape(lossless, step, most, v)
}

// The product modulo 2^64.
#[unsafe(no_mangle)]
pub extern "C" fn velomitra_wrapping_mul(a: u64, b: u64) -> u64
    ensures { result ≡ (a * b) % 2 ^ 64 }
{
    exports::velomitra_wrapping_mul(a, b)
}
