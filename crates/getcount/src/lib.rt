// Reader of the number of index runs.
#![tactic(auto)]

ghost use Rattle.std.specs.Prelude.{◌≡◌, ◌≤◌};
ghost use Rattle.h265.specs.Parse.{rice_at, count_at};
ghost use Rattle.get.specs.As.{answer_of};

use bins::pow2;
use get::BinReader;
use getones::{ones_at, tail_at, unary_at};
use refusal::Refused;

// Truncated Rice with parameter r up to 4 × 2^r, Exp-Golomb beyond.
#[tactic(auto, unfolding(h265::specs::Parse::rice_at))]
fn rice_at(reader: &mut BinReader<'_>, r: u32) -> Result<u32, Refused>
    requires { r ≤ 12 }
    ensures value { answer_of result reader.new.at ≡ rice_at r reader.old.list.now reader.old.at }
    ensures list { reader.new.list ≡ reader.old.list }
{
    let first = reader.at;
    let p = pow2(r);
    let ones = unary_at(reader, 4)?;
    if ones < 4 {
        tail_at(reader, r, ones * p)
    } else {
        ones_at(reader, first, r + 1, 4 * p)
    }
}

// num_palette_indices_minus1, where the greatest index is m.
#[tactic(auto, unfolding(h265::specs::Parse::count_at))]
pub fn count_at(reader: &mut BinReader<'_>, m: u32) -> Result<u32, Refused>
    requires { m ≤ 64 }
    ensures value { answer_of result reader.new.at ≡ count_at m reader.old.list.now reader.old.at }
    ensures list { reader.new.list ≡ reader.old.list }
{
    rice_at(reader, 3 + (m + 1) / 8)
}
