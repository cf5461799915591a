// Counting a block's colours, given as packed numbers in row order.
#![tactic(auto)]

ghost use Rattle.std.specs.Prelude.{◌≡◌, [], ◌+◌, ◌<◌, ◌≤◌, ◌==◌, IfSome, get_or, length};
ghost use Rattle.std.specs.List.{prefix_len};
ghost use Rattle.colors.specs.Table.{tab, Holds};
ghost use Rattle.census.specs.Census.{as_census, census_of, table_to};
ghost use Rattle.census.specs.Going.{Noted};

use colors::ColorIndex;

// The distinct colours of a block as first met, with their counts; 0 behind them.
// Stays arrays with a count: no heap, and `census` names the two lists.
#[derive(Clone, Copy)]
pub struct Census {
    pub distinct: usize,
    pub met: [u64; 128],
    pub counts: [u32; 128],
}

impl Census {
    // One sample noted: at its colour's place p, or as the first of its colour.
    fn note(&mut self, p: usize, key: u64)
        requires { (p < 128) × (self.old.distinct ≤ p → self.old.distinct < 128) × (p < self.old.distinct → get_or self.old.counts p 0 ≤ 1024) }
        ensures { Noted self.old.met self.new.met self.old.counts self.new.counts p self.old.distinct key self.new.distinct }
    {
        if p < self.distinct {
            self.counts[p] += 1;
        } else {
            self.met[self.distinct] = key;
            self.counts[self.distinct] = 1;
            self.distinct += 1;
        }
    }
}

// How many samples there are of a colour before the first of another.
fn run(samples: &[u64], key: u64) -> usize
    ensures { (result ≡ prefix_len (λ x. x == key) samples.now) × (result ≤ length samples.now) }
{
    samples.iter().take_while(|x| **x == key).count()
}

// The colours of the samples with their counts, a run of one colour at a turn; none where there are more than 128.
pub fn count(samples: &[u64], counter: &mut ColorIndex) -> Option<Census>
    requires samples_len { length samples.now ≤ 1024 }
    requires holds { Holds (tab counter.old.keys counter.old.entry counter.old.stamp) counter.old.generation [] }
    ensures found { as_census result ≡ census_of samples.now (length samples.now) }
    ensures few { IfSome result (λ found. found.distinct ≤ 128) }
    ensures table { tab counter.new.keys counter.new.entry counter.new.stamp
        ≡ table_to (tab counter.old.keys counter.old.entry counter.old.stamp) counter.old.generation samples.now (length samples.now) }
    ensures kept { counter.new.generation ≡ counter.old.generation }
{
    let mut found = Census {
        distinct: 0,
        met: [0; 128],
        counts: [0; 128],
    };
    let mut i = 0;
    // Stays a while: a turn's step is the length of a run.
    while i < samples.len() {
        let key = samples[i];
        let p = usize::from(counter.lookup_or_insert(key, found.distinct as u16));
        if p == 128 {
            return None;
        }
        found.note(p, key);
        let more = run(&samples[i + 1..], key);
        found.counts[p] += more as u32;
        i += more + 1;
    }
    Some(found)
}
