// The palette of a block, from its samples as packed numbers in row order: counting, then choosing.
#![tactic(auto)]

ghost use Rattle.std.specs.Prelude.{◌≡◌, true, ◌≤◌, length};
ghost use Rattle.colors.specs.Table.{none_above};
ghost use Rattle.analyse.specs.Analyse.{as_analysed, analysis_of};

use choose::Painting;
use colors::ColorIndex;
use refusal::Refusal;

// The palette of the samples, at most limit entries long, or 13; and the counter after it.
pub fn analyse(
    samples: &[u64],
    shift: u64,
    tol: u64,
    limit: usize,
    entries: &[u64],
    index: &mut ColorIndex,
) -> Result<Painting, Refusal>
    requires samples_len { (length samples.now ≤ 1024) × (shift ≤ 8) × (none_above index.old.generation index.old.stamp ≡ true) }
    requires limit_bound { (limit ≤ 64) × (length entries.now ≤ 128) }
    ensures { as_analysed result index.new ≡ analysis_of index.old samples.now (length samples.now) shift tol limit entries.now }
{
    let found = tally::tallied(samples, shift, index)?;
    let met = &found.met[..found.distinct];
    let counts = &found.counts[..found.distinct];
    Ok(paint::paint(met, counts, tol, limit, entries))
}
