// Readers of Exp-Golomb values.
#![tactic(auto)]

ghost use Rattle.std.specs.Prelude.{◌≡◌, ◌≤◌};
ghost use Rattle.h265.specs.Parse.{egk_at, held};
ghost use Rattle.get.specs.As.{answer_of};

use get::BinReader;
use getones::ones_at;
use refusal::{Refusal, Refused};

// Exp-Golomb of order `order`.
#[tactic(auto, unfolding(h265::specs::Parse::egk_at))]
pub fn egk_at(reader: &mut BinReader<'_>, order: u32) -> Result<u32, Refused>
    requires { order ≤ 13 }
    ensures value { answer_of result reader.new.at ≡ egk_at order reader.old.list.now reader.old.at }
    ensures list { reader.new.list ≡ reader.old.list }
{
    let first = reader.at;
    ones_at(reader, first, order, 0)
}

// Exp-Golomb of order `order`, of values up to `top`.
#[tactic(auto, unfolding(h265::specs::Parse::held))]
pub fn held_egk_at(reader: &mut BinReader<'_>, order: u32, top: u32) -> Result<u32, Refused>
    requires { order ≤ 13 }
    ensures value { answer_of result reader.new.at ≡ held reader.old.at top (egk_at order reader.old.list.now reader.old.at) }
    ensures list { reader.new.list ≡ reader.old.list }
{
    let first = reader.at;
    let value = egk_at(reader, order)?;
    if value > top {
        return Err(Refusal::Value.at(first));
    }
    Ok(value)
}
