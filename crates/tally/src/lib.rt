// A block's colours and their counts, or refusal 13; and the colour counter after it.
#![tactic(auto)]

ghost use Rattle.std.specs.Prelude.{◌≡◌, true, ◌≤◌, length};
ghost use Rattle.colors.specs.Table.{none_above};
ghost use Rattle.tally.specs.Tally.{as_tally, tally_of};

use census::Census;
use colors::ColorIndex;
use refusal::Refusal;

// The colours of the samples, or 13. The counter moves on, but stays as it was where the luma pre-check refuses.
pub fn tallied(samples: &[u64], shift: u64, index: &mut ColorIndex) -> Result<Census, Refusal>
    requires { (length samples.now ≤ 1024) × (shift ≤ 8) × (none_above index.old.generation index.old.stamp ≡ true) }
    ensures { as_tally result index.new ≡ tally_of index.old samples.now (length samples.now) shift }
{
    let before = *index;
    index.clear();
    match census::count(samples, index) {
        Some(found) if found.distinct * 2 <= samples.len() => Ok(found),
        _ => {
            if luma::luma_exceeds(samples, shift, (samples.len() / 2).min(128)) {
                *index = before;
            }
            Err(Refusal::TooManyColors)
        }
    }
}
