// Blocks and predictors laid in lent lists of numbers, as crate flat has them.
#![tactic(auto)]

ghost use Rattle.std.specs.Prelude.{◌≡◌, ℕ, List, [], ◌∷◌, ◌≤◌, length};
ghost use Rattle.std.specs.List.{flat_map};
ghost use Rattle.std.proofs.lemmas.List.Edits.{sets};
ghost use Rattle.base.specs.Laid.{Laid};
ghost use Rattle.flat.specs.Flat.{short, head_of, flat_block, flat_predictor};
ghost use Rattle.layflat.specs.Front.{front_of};
ghost use Rattle.layflat.specs.Numbers.{number_alone, bit_alone, color_numbers, levels_numbers, Few, few_alone, few_bit, few_color, few_levels};

use laying::put;
use model::{Color, Levels, PaletteCu, PalettePredictor};

// What is laid as numbers of 16 bits, at most three.
trait Flat: Copy {
    ghost numbers: { Self → List ℕ };

    ghost few: { Few numbers };

    // Its numbers; the next place.
    fn lay(self, list: &mut [u16], at: usize) -> usize
        requires { at ≤ 65533 }
        ensures { Laid list.old at (numbers self) result list.new };
}

impl Flat for u16 {
    ghost numbers = { number_alone };

    ghost few = { few_alone };

    // The number itself.
    fn lay(self, list: &mut [u16], at: usize) -> usize {
        put(list, at, self)
    }
}

impl Flat for u8 {
    ghost numbers = { number_alone };

    ghost few = { few_alone };

    // The number itself.
    fn lay(self, list: &mut [u16], at: usize) -> usize {
        put(list, at, u16::from(self))
    }
}

impl Flat for bool {
    ghost numbers = { bit_alone };

    ghost few = { few_bit };

    // 1 where it is on, else 0.
    fn lay(self, list: &mut [u16], at: usize) -> usize {
        put(list, at, u16::from(self))
    }
}

impl Flat for Color {
    ghost numbers = { color_numbers };

    ghost few = { few_color };

    // Its components.
    fn lay(self, list: &mut [u16], at: usize) -> usize {
        put_three(list, at, self.y, self.cb, self.cr)
    }
}

impl Flat for Levels {
    ghost numbers = { levels_numbers };

    ghost few = { few_levels };

    // Its components.
    fn lay(self, list: &mut [u16], at: usize) -> usize {
        put_three(list, at, self.y, self.cb, self.cr)
    }
}

// Three numbers; the next place.
fn put_three(list: &mut [u16], at: usize, x: u16, y: u16, z: u16) -> usize
    requires { at ≤ 65533 }
    ensures { Laid list.old at (x ∷ y ∷ z ∷ []) result list.new }
{
    let second = put(list, at, x);
    let third = put(list, second, y);
    put(list, third, z)
}

// All of a list, one after the other; the next place.
fn lay_all<T: Flat>(list: &mut [u16], at: usize, all: &[T]) -> usize
    requires { (at ≤ 4432) × (length all.now ≤ 1024) }
    ensures { Laid list.old at (flat_map T.numbers all.now) result list.new }
{
    let mut to = at;
    for x in all {
        to = x.lay(list, to);
    }
    to
}

// A number held to 16 bits.
fn short(x: usize) -> u16
    ensures { result ≡ short x }
{
    x.min(65535) as u16
}

// The numbers before a block's palette.
fn head(cu: PaletteCu) -> [u16; 16]
    ensures { result ≡ head_of cu }
{
    [
        short(cu.size),
        u16::from(cu.chroma_idc),
        u16::from(cu.bd_luma),
        u16::from(cu.bd_chroma),
        u16::from(cu.lossless),
        short(cu.palette_size),
        short(cu.pred_size),
        short(cu.num_signaled),
        u16::from(cu.escape_present),
        u16::from(cu.transpose),
        short(cu.tolerance as usize),
        (cu.sse % 65536) as u16,
        (cu.sse / 65536 % 65536) as u16,
        (cu.sse / 4294967296 % 65536) as u16,
        (cu.sse / 281474976710656 % 65536) as u16,
        0,
    ]
}

// A block up to its levels; the next place.
pub fn lay_front(cu: PaletteCu, list: &mut [u16]) -> usize
    ensures { Laid list.old 0 (front_of cu) result list.new × (result ≡ 1360) }
{
    let palette = lay_all(list, 0, &head(cu));
    let flags = lay_all(list, palette, &cu.palette);
    let indices = lay_all(list, flags, &cu.reused);
    lay_all(list, indices, &cu.indices)
}

// A block, as far as the list reaches.
pub fn lay_block(cu: PaletteCu, list: &mut [u16])
    ensures { list.new ≡ sets list.old 0 (flat_block cu) }
{
    let levels = lay_front(cu, list);
    lay_all(list, levels, &cu.escapes);
}

// A predictor, as far as the list reaches.
pub fn lay_predictor(p: PalettePredictor, list: &mut [u16])
    ensures { list.new ≡ sets list.old 0 (flat_predictor p) }
{
    let entries = put(list, 0, short(p.size));
    lay_all(list, entries, &p.entries);
}
