// The leaves for other languages: numbers and lists of numbers, nothing required. Outside a leaf's domain a number is 2^64 - 1.
#![tactic(auto)]

ghost use Rattle.std.specs.Prelude.{◌≡◌, ◌*◌, ◌%◌, ◌^◌};
ghost use Rattle.quant.specs.Quant.{tolerance_of, dist};
ghost use Rattle.exports.specs.Numbers.{scan_pos, scan_pos_inv, place_above, step_out, dequant_out, quantize_out};

use quant::{dequant_escape, distance, quantize_escape, step, tolerance};
use scan::{place_above, scan_pos, scan_pos_inv};
use wrap::wrapping_mul;

const NONE: u64 = u64::MAX;

// The cell at scan place i of a block of side size: row × 65536 + column.
#[tactic(auto, unfolding(crate::specs::Numbers::scan_pos))]
#[unsafe(no_mangle)]
pub extern "C" fn velomitra_scan_pos(i: usize, size: usize) -> u64
    ensures { result ≡ scan_pos i size }
{
    if size < 1 || 32 < size || 1024 <= i {
        return NONE;
    }
    let p = scan_pos(i, size);
    (p.row * 65536 + p.col) as u64
}

// The scan place of a cell of a block of side size.
#[tactic(auto, unfolding(crate::specs::Numbers::scan_pos_inv))]
#[unsafe(no_mangle)]
pub extern "C" fn velomitra_scan_pos_inv(col: usize, row: usize, size: usize) -> u64
    ensures { result ≡ scan_pos_inv col row size }
{
    if 32 < size || size <= col || size <= row {
        return NONE;
    }
    scan_pos_inv(col, row, size) as u64
}

// The scan place of the cell above scan place i of a block of side size.
#[tactic(auto, unfolding(crate::specs::Numbers::place_above))]
#[unsafe(no_mangle)]
pub extern "C" fn velomitra_place_above(i: usize, size: usize) -> u64
    ensures { result ≡ place_above i size }
{
    if size < 1 || i < size || 1024 <= i {
        return NONE;
    }
    place_above(i, size) as u64
}

// The step of a QP.
#[tactic(auto, unfolding(crate::specs::Numbers::step_out))]
#[unsafe(no_mangle)]
pub extern "C" fn velomitra_step(qp: i32) -> u64
    ensures { result ≡ step_out qp }
{
    if 75 < qp {
        return NONE;
    }
    step(qp)
}

// The tolerance at a step.
#[unsafe(no_mangle)]
pub extern "C" fn velomitra_tolerance(lossless: bool, step: u64) -> u64
    ensures { result ≡ tolerance_of lossless step }
{
    tolerance(lossless, step)
}

// The distance of two colours, each y + 2^16 u + 2^32 v.
#[unsafe(no_mangle)]
pub extern "C" fn velomitra_distance(a: u64, b: u64) -> u64
    ensures { result ≡ dist a b }
{
    distance(a, b)
}

// The value of an escape level.
#[tactic(auto, unfolding(crate::specs::Numbers::dequant_out))]
#[unsafe(no_mangle)]
pub extern "C" fn velomitra_dequant_escape(lossless: bool, step: u64, most: u64, level: i32) -> u64
    ensures { result ≡ dequant_out lossless step most level }
{
    if 294912 < step {
        return NONE;
    }
    dequant_escape(lossless, step, most, level)
}

// The escape level of a value.
#[tactic(auto, unfolding(crate::specs::Numbers::quantize_out))]
#[unsafe(no_mangle)]
pub extern "C" fn velomitra_quantize_escape(lossless: bool, step: u64, most: u64, v: u64) -> u64
    ensures { result ≡ quantize_out lossless step most v }
{
    if step < 1 || 294912 < step || 65535 < v {
        return NONE;
    }
    quantize_escape(lossless, step, most, v)
}

// The product modulo 2^64.
#[unsafe(no_mangle)]
pub extern "C" fn velomitra_wrapping_mul(a: u64, b: u64) -> u64
    ensures { result ≡ (a * b) % 2 ^ 64 }
{
    wrapping_mul(a, b)
}
