// Writer of num_palette_indices_minus1 onto a lent bin list.
#![tactic(auto)]

ghost use Rattle.std.specs.Prelude.{◌+◌, ◌^◌, ◌≤◌, ◌<◌};
ghost use Rattle.base.specs.Laid.{Laid};
ghost use Rattle.h265.specs.Strings.{unary, bypass, count_bins};

use bins::pow2;
use put::put_bits;
use putgolomb::put_egk;

// Truncated unary over four in class 0.
fn put_four(list: &mut [u8], at: usize, ones: u32) -> usize
    requires { (ones ≤ 4) × (at + 32 < 2 ^ 63) }
    ensures { Laid list.old at (unary bypass 0 4 ones) result list.new }
{
    if ones < 4 {
        return put_bits(list, at, pow2(ones + 1) - 2, ones + 1);
    }
    put_bits(list, at, 15, 4)
}

// num_palette_indices_minus1 where M is m.
pub fn put_count(list: &mut [u8], at: usize, m: u32, v: u32) -> usize
    requires { (m ≤ 64) × (v ≤ 65535) × (at + 128 < 2 ^ 63) }
    ensures laid { Laid list.old at (count_bins m v) result list.new }
    ensures near { result ≤ at + 64 }
{
    let rice = 3 + (m + 1) / 8;
    let p = pow2(rice);
    if v < 4 * p {
        let q = put_four(list, at, v / p);
        return put_bits(list, q, v, rice);
    }
    let q = put_four(list, at, 4);
    put_egk(list, q, rice + 1, v - 4 * p)
}
