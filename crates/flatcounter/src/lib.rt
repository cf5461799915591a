// The colour counter as lists of numbers, for callers that have no records: 256 keys; 256 entries; the generation, then 256 stamps. A list may have any length: a number that is missing reads as 0, and what would lie past the end is not laid.
#![tactic(auto)]

ghost use Rattle.std.specs.Prelude.{◌≡◌, ◌∷◌, ◌+◌, ◌≤◌, min, length, replicate};
ghost use Rattle.std.proofs.lemmas.List.Edits.{sets};
ghost use Rattle.colors.specs.Table.{unused};
ghost use Rattle.flat.specs.Flat.{number, each};
ghost use Rattle.flatcounter.specs.Counter.{counter_of, marks_of};

use colors::ColorIndex;

// Keys read over zeros.
fn read_keys(list: &[u64], out: &mut [u64; 256])
    requires { out.old ≡ replicate 256 0 }
    ensures { out.new ≡ each 0 256 (number list.now) }
{
    for i in 0..list.len().min(256) {
        out[i] = list[i];
    }
}

// A counter's keys.
pub fn keys_of(list: &[u64]) -> [u64; 256]
    ensures { result ≡ each 0 256 (number list.now) }
{
    let mut out: [u64; 256] = [0; 256];
    read_keys(list, &mut out);
    out
}

// Entries read over zeros.
fn read_entries(list: &[u16], out: &mut [u16; 256])
    requires { out.old ≡ replicate 256 0 }
    ensures { out.new ≡ each 0 256 (number list.now) }
{
    for i in 0..list.len().min(256) {
        out[i] = list[i];
    }
}

// A counter's entries.
pub fn entries_of(list: &[u16]) -> [u16; 256]
    ensures { result ≡ each 0 256 (number list.now) }
{
    let mut out: [u16; 256] = [0; 256];
    read_entries(list, &mut out);
    out
}

// Stamps read over zeros.
fn read_stamps(list: &[u32], out: &mut [u32; 256])
    requires { out.old ≡ replicate 256 0 }
    ensures { out.new ≡ each 0 256 (λ i. number list.now (1 + i)) }
{
    for i in 0..list.len().min(257).saturating_sub(1) {
        out[i] = list[1 + i];
    }
}

// A counter's stamps.
pub fn stamps_of(list: &[u32]) -> [u32; 256]
    ensures { result ≡ each 0 256 (λ i. number list.now (1 + i)) }
{
    let mut out: [u32; 256] = [0; 256];
    read_stamps(list, &mut out);
    out
}

// A counter's generation.
pub fn generation_of(list: &[u32]) -> u32
    ensures { result ≡ number list.now 0 }
{
    list.first().copied().unwrap_or(0)
}

// Keys, as far as the list reaches.
pub fn lay_keys(xs: &[u64; 256], list: &mut [u64])
    requires { length xs.now ≡ 256 }
    ensures { list.new ≡ sets list.old 0 xs.now }
{
    for i in 0..list.len().min(256) {
        list[i] = xs[i];
    }
}

// Entries, as far as the list reaches.
pub fn lay_entries(xs: &[u16; 256], list: &mut [u16])
    requires { length xs.now ≡ 256 }
    ensures { list.new ≡ sets list.old 0 xs.now }
{
    for i in 0..list.len().min(256) {
        list[i] = xs[i];
    }
}

// Stamps from place 1 on, as far as the list reaches.
fn lay_stamps(xs: &[u32; 256], list: &mut [u32])
    requires { length xs.now ≡ 256 }
    ensures { list.new ≡ sets list.old 1 xs.now }
{
    for i in 0..list.len().min(257).saturating_sub(1) {
        list[1 + i] = xs[i];
    }
}

// A generation and stamps, as far as the list reaches.
pub fn lay_marks(generation: u32, stamp: &[u32; 256], list: &mut [u32])
    requires { length stamp.now ≡ 256 }
    ensures { list.new ≡ sets list.old 0 (generation ∷ stamp.now) }
{
    if list.len() == 0 {
        return;
    }
    list[0] = generation;
    lay_stamps(stamp, list);
}

// A counter's three lists read into one that has not been used.
#[tactic(auto, unfolding(crate::specs::Counter::counter_of, colors::specs::Table::unused))]
pub fn read_counter(keys: &[u64], entry: &[u16], stamp: &[u32], counter: &mut ColorIndex)
    requires { counter.old ≡ unused }
    ensures { counter.new ≡ counter_of keys.now entry.now stamp.now }
{
    read_keys(keys, &mut counter.keys);
    read_entries(entry, &mut counter.entry);
    read_stamps(stamp, &mut counter.stamp);
    counter.generation = generation_of(stamp);
}

// A counter of its three lists.
pub fn counter_of(keys: &[u64], entry: &[u16], stamp: &[u32]) -> ColorIndex
    ensures { result ≡ counter_of keys.now entry.now stamp.now }
{
    let mut counter = ColorIndex::new();
    read_counter(keys, entry, stamp, &mut counter);
    counter
}

// A counter in its three lists, as far as they reach.
pub fn lay_counter(counter: &ColorIndex, keys: &mut [u64], entry: &mut [u16], stamp: &mut [u32])
    ensures { (keys.new ≡ sets keys.old 0 counter.now.keys)
        × (entry.new ≡ sets entry.old 0 counter.now.entry)
        × (stamp.new ≡ sets stamp.old 0 (marks_of counter.now)) }
{
    lay_keys(&counter.keys, keys);
    lay_entries(&counter.entry, entry);
    lay_marks(counter.generation, &counter.stamp, stamp);
}
