// The layout of the file that `list` reads: nine little-endian numbers of 32 bits, the predictor's entries as three of 16 bits each, then bins.
#![tactic(auto)]

ghost use Rattle.std.specs.Prelude.{◌≡◌, ◌+◌, ◌≤◌, ◌<◌, min, get_or};
ghost use Rattle.layout.specs.Layout.{half_at, word_at, entry_at, laid_out, array_of};

use model::{Color, PalettePredictor};

// The byte at a place, 0 past the end.
fn byte_at(file: &[u8], p: usize) -> u8
    ensures { result ≡ get_or file.now p 0 }
{
    file.get(p).copied().unwrap_or(0)
}

// The little-endian number of 16 bits at a place.
#[tactic(auto, unfolding(crate::specs::Layout::half_at))]
fn half_at(file: &[u8], p: usize) -> u16
    requires { p ≤ 65536 }
    ensures { result ≡ half_at file.now p }
{
    u16::from_le_bytes([byte_at(file, p), byte_at(file, p + 1)])
}

// The little-endian number of 32 bits at a place.
#[tactic(auto, unfolding(crate::specs::Layout::word_at))]
pub fn word_at(file: &[u8], p: usize) -> usize
    requires { p ≤ 32768 }
    ensures { (result ≡ word_at file.now p) × (result < 4294967296) }
{
    usize::from(half_at(file, p)) + 65536 * usize::from(half_at(file, p + 2))
}

// The same held to a byte: 255 is in no domain.
pub fn held_at(file: &[u8], p: usize) -> u8
    requires { p ≤ 32768 }
    ensures { result ≡ min (word_at file.now p) 255 }
{
    word_at(file, p).min(255) as u8
}

// The predictor's entry at a place.
#[tactic(auto, unfolding(crate::specs::Layout::entry_at))]
fn entry_at(file: &[u8], p: usize) -> Color
    requires { p ≤ 32768 }
    ensures { result ≡ entry_at file.now p }
{
    Color {
        y: half_at(file, p),
        cb: half_at(file, p + 2),
        cr: half_at(file, p + 4),
    }
}

// The predictor, as far as an array of 128 entries holds it.
pub fn predictor_of(file: &[u8]) -> PalettePredictor
    ensures { result ≡ array_of file.now }
{
    let size = word_at(file, 20);
    let mut entries = [Color { y: 0, cb: 0, cr: 0 }; 128];
    for (i, entry) in entries.iter_mut().enumerate() {
        *entry = entry_at(file, 36 + 6 * i);
    }
    PalettePredictor { entries, size }
}

// The test for refusal 16.
#[tactic(auto, unfolding(crate::specs::Layout::laid_out))]
pub fn laid_out(file: &[u8]) -> bool
    ensures { result ≡ laid_out file.now }
{
    let count = word_at(file, 20);
    let from = word_at(file, 32);
    file.len() <= 65536
        && word_at(file, 16) <= 1
        && word_at(file, 24) == 36
        && from == 36 + 6 * count
        && file.len() == from + word_at(file, 28)
}
