// The colour counter: 256 slots with linear probing, each marked by the generation that wrote it.
#![tactic(auto)]

ghost use Rattle.std.specs.Prelude.{◌≡◌, ◌^◌, ◌<◌, length};
ghost use Rattle.colors.specs.Table.{tab, hash_of, slot_of, answer_of, after_of, generation_of, stamps_of, none_above, unused};

// Colours with their numbers: slot s holds one where its stamp is the generation.
// Stays three arrays: `unused` and `tab` name them, and each is a list of its own in the C interface.
#[derive(Clone, Copy, PartialEq, Eq)]
pub struct ColorIndex {
    pub keys: [u64; 256],
    pub entry: [u16; 256],
    pub stamp: [u32; 256],
    pub generation: u32,
}

impl ColorIndex {
    // A counter that has not been used: all 0.
    pub fn new() -> ColorIndex
        ensures { result ≡ unused }
    {
        ColorIndex {
            keys: [0; 256],
            entry: [0; 256],
            stamp: [0; 256],
            generation: 0,
        }
    }

    // Whether no stamp is above the generation.
    pub fn stamps_hold(&self) -> bool
        ensures { result ≡ none_above self.now.generation self.now.stamp }
    {
        let mut ok = true;
        for stamp in &self.stamp {
            ok = ok & (*stamp <= self.generation);
        }
        ok
    }

    // The next generation; where the number rolls over it is 1 and the stamps are cleared.
    #[tactic(auto, unfolding(crate::specs::Table::generation_of, crate::specs::Table::stamps_of))]
    pub fn clear(&mut self)
        ensures next { (self.new.generation ≡ generation_of self.old.generation)
            × (self.new.stamp ≡ stamps_of self.old.generation self.old.stamp) }
        ensures kept { (self.new.keys ≡ self.old.keys) × (self.new.entry ≡ self.old.entry) }
        ensures wide { (length self.old.keys ≡ 256) × (length self.old.entry ≡ 256) × (length self.old.stamp ≡ 256) × (self.old.generation < 2 ^ 32) }
    {
        self.generation = self.generation.wrapping_add(1);
        if self.generation == 0 {
            self.stamp = [0; 256];
            self.generation = 1;
        }
    }

    // The slot at which a look-up of the key ends.
    fn find(&self, key: u64) -> usize
        ensures { (result ≡ slot_of self.now.keys self.now.stamp self.now.generation key)
            × (result < 256) }
    {
        let first = hash(key);
        for d in 0..256 {
            let s = (first + d) % 256;
            if self.stamp[s] != self.generation || self.keys[s] == key {
                return s;
            }
        }
        first
    }

    // The number of the key; one that is not there is put in with the number next.
    #[tactic(auto, unfolding(crate::specs::Table::answer_of, crate::specs::Table::after_of))]
    pub fn lookup_or_insert(&mut self, key: u64, next: u16) -> u16
        ensures answer { result ≡ answer_of (tab self.old.keys self.old.entry self.old.stamp) self.old.generation key next }
        ensures after { tab self.new.keys self.new.entry self.new.stamp
            ≡ after_of (tab self.old.keys self.old.entry self.old.stamp) self.old.generation key next }
        ensures kept { self.new.generation ≡ self.old.generation }
    {
        let s = self.find(key);
        if self.stamp[s] == self.generation {
            return self.entry[s];
        }
        self.stamp[s] = self.generation;
        self.keys[s] = key;
        self.entry[s] = next;
        next
    }
}

// The first slot of a key: the high byte of its product with 2^64 / φ.
#[tactic(auto, unfolding(crate::specs::Table::hash_of))]
fn hash(key: u64) -> usize
    ensures { (result ≡ hash_of key) × (result < 256) }
{
    (wrap::wrapping_mul(key, 11400714819323198485) >> 56) as usize
}
