// Values laid onto a lent list, as far as it reaches: what lies past its end is counted and not stored.
#![tactic(auto)]

ghost use Rattle.std.specs.Prelude.{◌≡◌, [], ◌∷◌, ◌^◌, ◌<◌, set};
ghost use Rattle.base.specs.Laid.{Laid};

// One value, where there is room; the next place.
pub fn put<T: Copy>(list: &mut [T], at: usize, value: T) -> usize
    requires { at < 2 ^ 63 }
    ensures { Laid list.old at (value ∷ []) result list.new }
{
    store(list, at, value);
    at + 1
}

// One value, where there is room.
pub fn store<T: Copy>(list: &mut [T], at: usize, value: T)
    ensures { list.new ≡ set list.old at value }
{
    if at < list.len() {
        list[at] = value;
    }
}
