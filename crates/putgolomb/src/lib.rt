// Writer of the Exp-Golomb codes onto a lent bin list.
#![tactic(auto)]

ghost use Rattle.std.specs.Prelude.{◌+◌, ◌^◌, ◌≤◌, ◌<◌};
ghost use Rattle.base.specs.Laid.{Laid};
ghost use Rattle.h265.specs.Strings.{egk};

use bins::pow2;
use put::{put_bin, put_bits};

// Exp-Golomb of the given order.
pub fn put_egk(list: &mut [u8], at: usize, order: u32, value: u32) -> usize
    requires { (order ≤ 13) × (value ≤ 65535) × (at + 64 < 2 ^ 63) }
    ensures laid { Laid list.old at (egk order value) result list.new }
    ensures near { result ≤ at + 33 }
{
    let mut to = at;
    let mut k = order;
    let mut p = pow2(order);
    let mut v = value;
    // Stays a while: the step is the power, twice as long each time.
    while p <= v {
        to = put_bin(list, to, 1);
        k += 1;
        v -= p;
        p += p;
    }
    to = put_bin(list, to, 0);
    put_bits(list, to, v, k)
}
