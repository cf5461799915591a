// The predictor's update on the list of numbers that crate flat lays it out as, of a call in order.
#![tactic(auto)]

ghost use Rattle.std.specs.Prelude.{◌≡◌, ◌+◌, ◌*◌, ◌-◌, ◌≤◌, ◌<◌, length, take, drop, set, replicate};
ghost use Rattle.std.proofs.lemmas.List.Edits.{sets};
ghost use Rattle.flat.specs.Flat.{flat_predictor};
ghost use Rattle.flatready.specs.Ready.{Ready};
ghost use Rattle.flatupdate.specs.Renewing.{Kept, Stepped, Walked, after_of};

// n numbers of a list from a place on, laid on another.
fn copy(list: &mut [u16], to: usize, source: &[u16], from: usize, n: usize)
    requires { (to + n ≤ length list.old) × (from + n ≤ length source.now) × (to ≤ 385) × (from ≤ 4432) × (n ≤ 384) }
    ensures { list.new ≡ sets list.old to (take n (drop from source.now)) }
{
    for i in 0..n {
        list[to + i] = source[from + i];
    }
}

// Old entry j laid as entry k where its flag is off; and how many entries stand then.
fn keep_one(list: &mut [u16], old: &[u16], block: &[u16], k: usize, j: usize) -> usize
    requires { (385 ≤ length list.old) × (384 ≤ length old.now) × (4432 ≤ length block.now) × (k < 128) × (j < 128) }
    ensures { Stepped list.old old.now block.now k j result list.new }
{
    if block[208 + j] == 1 {
        return k;
    }
    list[1 + 3 * k] = old[3 * j];
    list[1 + 3 * k + 1] = old[3 * j + 1];
    list[1 + 3 * k + 2] = old[3 * j + 2];
    k + 1
}

// Four old entries from j on laid so.
fn keep_four(list: &mut [u16], old: &[u16], block: &[u16], k: usize, j: usize) -> usize
    requires { (385 ≤ length list.old) × (384 ≤ length old.now) × (4432 ≤ length block.now) × (k + 4 ≤ 128) × (j + 4 ≤ 128) }
    ensures { Walked list.old old.now block.now k j 4 result list.new }
{
    let a = keep_one(list, old, block, k, j);
    let b = keep_one(list, old, block, a, j + 1);
    let c = keep_one(list, old, block, b, j + 2);
    keep_one(list, old, block, c, j + 3)
}

// The old entries whose flags are off, of those that have flags, laid after the first entries, up to the limit; and how many entries stand then.
fn keep(
    list: &mut [u16],
    old: &[u16],
    block: &[u16],
    first: usize,
    flags: usize,
    limit: usize,
) -> usize
    requires { (385 ≤ length list.old) × (384 ≤ length old.now) × (4432 ≤ length block.now) × (first ≤ limit) × (limit ≤ 128) × (flags ≤ 128) }
    ensures { Kept list.old old.now block.now first flags limit result list.new }
{
    let mut k = first;
    let mut j = 0;
    // Stays a while: a step passes four flags or one.
    while j < flags {
        if limit <= k {
            return k;
        }
        if (j + 4 <= flags) & (k + 4 <= limit) {
            k = keep_four(list, old, block, k, j);
            j += 4;
        } else {
            k = keep_one(list, old, block, k, j);
            j += 1;
        }
    }
    k
}

// The size, and no entry after so many.
fn finish(list: &mut [u16], size: usize)
    requires { (385 ≤ length list.old) × (size ≤ 128) }
    ensures { list.new ≡ sets (set list.old 0 size) (1 + 3 * size) (replicate (384 - 3 * size) 0) }
{
    list[0] = size as u16;
    list[1 + 3 * size..385].fill(0);
}

// The palette, then the old entries that were not reused, up to the limit: those that have flags, then the rest of them.
pub fn renew(list: &mut [u16], block: &[u16], limit: usize)
    requires { Ready list.old block.now limit }
    ensures { list.new ≡ sets list.old 0 (flat_predictor (after_of list.old block.now limit)) }
{
    let size = list[0] as usize;
    let mut old = [0; 384];
    copy(&mut old, 0, list, 1, 384);
    let first = (block[5] as usize).min(limit);
    copy(list, 1, block, 16, 3 * first);
    let flags = (block[6] as usize).min(size);
    let k = keep(list, &old, block, first, flags, limit);
    let more = (size - flags).min(limit - k);
    copy(list, 1 + 3 * k, &old, 3 * flags, 3 * more);
    finish(list, k + more);
}
