// The palette predictor: empty at first, and after each block its palette and what it did not reuse.
#![tactic(auto)]

ghost use Rattle.std.specs.Prelude.{◌≡◌, ◌≤◌, length, take};
ghost use Rattle.predictor.specs.Update.{padded, empty_predictor, renewed_of, update_of, as_updated};

use domain::predictor_in;
use model::{Color, PaletteCu, PalettePredictor};
use refusal::Refusal;
use whole::{block_size_in, holds_together};

// The predictor before the first block: empty.
pub fn reset() -> PalettePredictor
    ensures { result ≡ empty_predictor }
{
    PalettePredictor {
        entries: [Color { y: 0, cb: 0, cr: 0 }; 128],
        size: 0,
    }
}

// The first n entries of a palette, and none after them.
fn palette_first(palette: &[Color; 64], n: usize) -> [Color; 128]
    requires { n ≤ 64 }
    ensures { result ≡ padded 128 (take n palette.now) }
{
    let mut entries = reset().entries;
    entries[..n].copy_from_slice(&palette[..n]);
    entries
}

// The palette, then the old entries that were not reused, up to the limit.
fn renewed(old: &PalettePredictor, cu: &PaletteCu, limit: usize) -> PalettePredictor
    requires { (limit ≤ 128) × (cu.now.palette_size ≤ 64) × (old.now.size ≤ 128) × (length old.now.entries ≡ 128) }
    ensures { result ≡ renewed_of limit (take cu.now.palette_size cu.now.palette) (take cu.now.pred_size cu.now.reused) (take old.now.size old.now.entries) }
{
    let mut size = cu.palette_size.min(limit);
    let mut entries = palette_first(&cu.palette, size);
    for (j, entry) in old.entries[..old.size].iter().enumerate() {
        if limit <= size {
            return PalettePredictor { entries, size };
        }
        if cu.reused[j] & (j < cu.pred_size) {
            continue;
        }
        entries[size] = *entry;
        size += 1;
    }
    PalettePredictor { entries, size }
}

// The predictor after a block, or document 01's refusals 2, 5 and 7.
pub fn update(p: PalettePredictor, cu: PaletteCu, limit: usize) -> Result<PalettePredictor, Refusal>
    ensures { as_updated p result ≡ update_of p cu limit }
{
    if !block_size_in(cu) {
        return Err(Refusal::Geometry);
    }
    if !(predictor_in(cu.chroma_idc, cu.bd_luma, cu.bd_chroma, p) & (limit <= 128)) {
        return Err(Refusal::Predictor);
    }
    if !holds_together(64, cu) {
        return Err(Refusal::Block);
    }
    Ok(renewed(&p, &cu, limit))
}
