// Palette and flags of a block, from its colours and their counts.
#![tactic(auto)]

ghost use Rattle.std.specs.Prelude.{◌≡◌, map, ◌≤◌, length, take};
ghost use Rattle.choose.specs.Choose.{painting_of};
ghost use Rattle.paint.specs.Paint.{colour_in, palette_of};

use choose::Painting;

// The colour of a number; 0 past the end.
fn colour_at(met: &[u64], k: u16) -> u64
    ensures { result ≡ colour_in met.now k }
{
    met.get(usize::from(k)).copied().unwrap_or(0)
}

// The colours in order; 0 behind them.
fn gather(met: &[u64], order: &[u16]) -> [u64; 128]
    requires { length order.now ≤ 128 }
    ensures { take (length order.now) result ≡ map (colour_in met.now) order.now }
{
    let mut out = [0; 128];
    for (i, k) in order.iter().enumerate() {
        out[i] = colour_at(met, *k);
    }
    out
}

// The palette of colours with their counts, from the predictor's entries, at most limit entries long.
pub fn paint(met: &[u64], counts: &[u32], tol: u64, limit: usize, entries: &[u64]) -> Painting
    requires met_len { (length met.now ≤ 128) × (length counts.now ≡ length met.now) }
    requires limit_bound { (limit ≤ 64) × (length entries.now ≤ 128) }
    ensures { result ≡ painting_of (palette_of tol limit entries.now met.now counts.now) }
{
    let order = order::sort(counts);
    let colours = gather(met, &order[..met.len()]);
    let found = reps::representatives(&colours[..met.len()], limit, tol);
    choose::choose(entries, found, tol)
}
