// Colours of the records as packed numbers.
#![tactic(auto)]

ghost use Rattle.std.specs.Prelude.{◌≡◌, map, length};
ghost use Rattle.quant.specs.Quant.{packed};
ghost use Rattle.entries.specs.Entries.{packed_of};

use model::Color;

// Three samples as one number.
pub fn pack(y: u16, u: u16, v: u16) -> u64
    ensures { result ≡ packed y u v }
{
    u64::from(y) + 65536 * u64::from(u) + 4294967296 * u64::from(v)
}

// The entries of a palette as numbers.
pub fn pack_palette(palette: [Color; 64]) -> [u64; 64]
    ensures { (result ≡ map packed_of palette) × (length result ≡ 64) }
{
    let mut out = [0; 64];
    for i in 0..64 {
        let c = palette[i];
        out[i] = pack(c.y, c.cb, c.cr);
    }
    out
}
