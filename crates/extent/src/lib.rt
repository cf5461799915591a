// What a block's size and palette give: how many cells it has, and its greatest index.
#![tactic(auto)]

ghost use Rattle.std.specs.Prelude.{◌≡◌, ◌+◌, ◌-◌, ◌*◌, ◌≤◌};
ghost use Rattle.h265.specs.Strings.{bit};

// The cells of a block.
pub fn area(size: usize) -> usize
    requires { size ≤ 32 }
    ensures { (result ≡ size * size) × (result ≤ 1024) }
{
    size * size
}

// The greatest index of a palette of at most 64 entries; 0 also where it is empty.
pub fn greatest_index(size: usize, escape: bool) -> u8
    requires { size ≤ 64 }
    ensures { (result ≡ size + bit escape - 1) × (result ≤ 64) }
{
    if escape {
        return size as u8;
    }
    size.saturating_sub(1) as u8
}
