// Readers of an Exp-Golomb prefix and of what follows it.
#![tactic(auto)]

ghost use Rattle.std.specs.Prelude.{◌≡◌, ℕ, ◌≤◌, ◌<◌, IfOk};
ghost use Rattle.h265.specs.Parse.{bits_at, ones_from, unary_at};
ghost use Rattle.h265.specs.Strings.{bypass};
ghost use Rattle.h265.specs.Turns.{raise};
ghost use Rattle.get.specs.As.{answer_of};

use bins::pow2;
use get::BinReader;
use getbits::bits_at;
use refusal::{Refusal, Refused};

// Ones, at most `most`: number i is of class `class(i)`.
pub fn ones_of<F: Fn(u32) -> u8>(
    reader: &mut BinReader<'_>,
    most: u32,
    class: F,
) -> Result<u32, Refused>
    requires { F.IsAlwaysCallable class }
    ensures value { (c : ℕ → ℕ) → ((i r : ℕ) → F.post class i r → r ≡ c i) → answer_of result reader.new.at ≡ unary_at c 0 most reader.old.list.now reader.old.at }
    ensures list { reader.new.list ≡ reader.old.list }
    ensures most { IfOk result (λ k. k ≤ most) }
{
    for ones in 0..most {
        if !reader.bin(class(ones))? {
            return Ok(ones);
        }
    }
    Ok(most)
}

// Ones of class 0, at most `most`.
pub fn unary_at(reader: &mut BinReader<'_>, most: u32) -> Result<u32, Refused>
    ensures value { answer_of result reader.new.at ≡ unary_at bypass 0 most reader.old.list.now reader.old.at }
    ensures list { reader.new.list ≡ reader.old.list }
{
    ones_of(reader, most, |_| 0)
}

// k bits, added to `from`.
#[tactic(auto, using(crate::proofs::Sums::fits), unfolding(h265::specs::Turns::raise))]
pub fn tail_at(reader: &mut BinReader<'_>, k: u32, from: u32) -> Result<u32, Refused>
    requires { (k ≤ 30) × (from < 2147483648) }
    ensures value { answer_of result reader.new.at ≡ raise from (bits_at k reader.old.list.now reader.old.at) }
    ensures list { reader.new.list ≡ reader.old.list }
{
    Ok(from + bits_at(reader, k)?)
}

// Exp-Golomb of order `order`, added to `from`; `first` is the value's first place.
pub fn ones_at(
    reader: &mut BinReader<'_>,
    first: usize,
    order: u32,
    from: u32,
) -> Result<u32, Refused>
    requires { (order ≤ 13) × (from < 1073741824) }
    ensures value { answer_of result reader.new.at ≡ ones_from 16 first order from reader.old.list.now reader.old.at }
    ensures list { reader.new.list ≡ reader.old.list }
{
    let ones = unary_at(reader, 17)?;
    if ones > 16 {
        return Err(Refusal::Value.at(first));
    }
    tail_at(
        reader,
        order + ones,
        from + (pow2(order + ones) - pow2(order)),
    )
}
