// Numbers as decimal text, laid in a lent list of bytes. What would lie past the list's end is counted and not stored.
// Stays without `Display` and `write!`: by their contracts they may answer an error and say nothing of what is written then, and `Laid` holds of every call.
#![tactic(auto)]

ghost use Rattle.std.specs.Prelude.{◌+◌, ◌^◌, ◌≤◌, ◌<◌};
ghost use Rattle.base.specs.Laid.{Laid};
ghost use Rattle.digits.specs.Decimal.{decimal};

use laying::put;

// The digits of n, the highest first.
pub fn put_decimal(list: &mut [u8], at: usize, n: u64) -> usize
    requires { at < 2 ^ 62 }
    ensures laid { Laid list.old at (decimal n) result list.new }
    ensures near { result ≤ at + 20 }
{
    if n < 10 {
        return put(list, at, b'0' + n as u8);
    }
    let to = put_decimal(list, at, n / 10);
    put(list, to, b'0' + (n % 10) as u8)
}
