// Readers of fixed-length values and of truncated binary.
#![tactic(auto)]

ghost use Rattle.std.specs.Prelude.{◌≡◌, ◌*◌, ◌^◌, ◌≤◌, ◌<◌, IfOk};
ghost use Rattle.h265.specs.Parse.{bits_at, tb_at};
ghost use Rattle.get.specs.As.{answer_of};

use bins::{flog, pow2};
use get::BinReader;
use refusal::Refused;

// A value of n bits, high bit first.
pub fn bits_at(reader: &mut BinReader<'_>, n: u32) -> Result<u32, Refused>
    requires { n ≤ 32 }
    ensures value { answer_of result reader.new.at ≡ bits_at n reader.old.list.now reader.old.at }
    ensures list { reader.new.list ≡ reader.old.list }
    ensures small { IfOk result (λ v. v < 2 ^ n) }
{
    let mut value = 0;
    for _ in 0..n {
        value = value * 2 + u32::from(reader.bin(0)?);
    }
    Ok(value)
}

// Truncated binary over n values.
#[tactic(auto, using(crate::proofs::Truncated::fits), unfolding(h265::specs::Parse::tb_at))]
pub fn tb_at(reader: &mut BinReader<'_>, n: u32) -> Result<u32, Refused>
    requires { (1 ≤ n) × (n < 1073741824) }
    ensures value { answer_of result reader.new.at ≡ tb_at n reader.old.list.now reader.old.at }
    ensures list { reader.new.list ≡ reader.old.list }
{
    let k = flog(n);
    let short = pow2(k + 1) - n;
    let value = bits_at(reader, k)?;
    if value < short {
        return Ok(value);
    }
    Ok(value * 2 + bits_at(reader, 1)? - short)
}
