// The index of each cell of a block, and how many cells escape.
#![tactic(auto)]

ghost use Rattle.std.specs.Prelude.{◌≡◌, ℕ, ◌<◌, ◌≤◌, max, length, get_or};
ghost use Rattle.base.specs.Cells.{laid};
ghost use Rattle.quant.specs.Quant.{gap};
ghost use Rattle.assign.specs.Assign.{index_of, escapes_of};
ghost use Rattle.assign.specs.Memory.{Cached};
ghost use Rattle.assign.specs.Keys.{held_of, key_of, Split, Keyed};

// A palette of n entries, the tolerance within which a colour has an entry, and the components of the entries, those past the last as the first's.
// Stays three arrays of components: the compiler takes several entries of each at a time.
#[derive(Drop)]
struct Entries<'a> {
    palette: &'a [u64; 64],
    n: usize,
    tol: u64,
    ys: [u16; 64],
    us: [u16; 64],
    vs: [u16; 64],
    ghost bounds: { (1 ≤ n) × (n ≤ 64) },
    ghost split: { Split palette.now n ys us vs },
}

// Entry k of n; past them the first.
fn held(palette: &[u64; 64], n: usize, k: usize) -> u64
    requires { (1 ≤ n) × (n ≤ 64) }
    ensures { result ≡ held_of palette.now n k }
{
    if k < n { palette[k] } else { palette[0] }
}

// A distance and an entry's number as one: the lesser is nearer, or as near and of the lower number.
fn key(d: u16, k: usize) -> u16
    requires { k < 64 }
    ensures { result ≡ key_of d k }
{
    d.min(1023) * 64 + k as u16
}

impl<'a> Entries<'a> {
    // The entries of a palette.
    fn new(palette: &'a [u64; 64], n: usize, tol: u64) -> Self
        requires { (1 ≤ n) × (n ≤ 64) }
        ensures { (result.palette.now ≡ palette.now) × (result.n ≡ n) × (result.tol ≡ tol) }
    {
        let mut ys = [0; 64];
        let mut us = [0; 64];
        let mut vs = [0; 64];
        for k in 0..64 {
            let c = held(palette, n, k);
            ys[k] = (c % 65536) as u16;
            us[k] = (c / 65536 % 65536) as u16;
            vs[k] = (c / 4294967296 % 65536) as u16;
        }
        Entries {
            palette,
            n,
            tol,
            ys,
            us,
            vs,
        }
    }

    // The index of one colour, by a search.
    fn search(&self, e: u64) -> usize
        ensures { (result ≡ index_of self.now.tol self.now.palette.now self.now.n e) × (result ≤ self.now.n) }
    {
        let mut best = 0;
        let mut err = quant::distance(e, self.palette[0]);
        for k in 0..self.n {
            let d = quant::distance(e, self.palette[k]);
            if d < err {
                best = k;
                err = d;
            }
        }
        if err <= self.tol { best } else { self.n }
    }

    // The key of entry k.
    fn entry_key(&self, y: u16, u: u16, v: u16, k: usize) -> u16
        requires { k < 64 }
        ensures { result ≡ key_of (max (gap y (get_or self.now.ys k 0)) (max (gap u (get_or self.now.us k 0)) (gap v (get_or self.now.vs k 0)))) k }
    {
        let a = y.abs_diff(self.ys[k]);
        let b = u.abs_diff(self.us[k]);
        let c = v.abs_diff(self.vs[k]);
        key(a.max(b.max(c)), k)
    }

    // The least key of the entries.
    fn least_key(&self, e: u64) -> u16
        ensures { Keyed e self.now.palette.now self.now.n result }
    {
        let y = (e % 65536) as u16;
        let u = (e / 65536 % 65536) as u16;
        let v = (e / 4294967296 % 65536) as u16;
        let mut best = self.entry_key(y, u, v, 0);
        for k in 0..64 {
            best = self.entry_key(y, u, v, k).min(best);
        }
        best
    }

    // The index of one colour, by the least key where the tolerance is small.
    fn index_of(&self, e: u64) -> usize
        ensures { (result ≡ index_of self.now.tol self.now.palette.now self.now.n e) × (result ≤ self.now.n) }
    {
        if 1023 <= self.tol {
            return self.search(e);
        }
        let best = self.least_key(e);
        if u64::from(best / 64) <= self.tol {
            usize::from(best % 64)
        } else {
            self.n
        }
    }
}

// Colours found before, each in its slot, and their indices.
#[derive(Drop)]
struct Memory {
    colors: [u64; 256],
    indices: [u8; 256],
}

// Where a colour is remembered: any slot would do.
fn slot(c: u64) -> usize
    ensures { result < 256 }
{
    let y = c % 65536;
    let u = c / 65536 % 65536;
    let v = c / 4294967296 % 65536;
    ((y * 40503 + u * 30011 + v * 48271) / 256 % 256) as usize
}

impl Memory {
    // The index of one colour: that of the colour before, if it is the same; else remembered; else found.
    fn index_next(&mut self, entries: &Entries, last: u64, at: u8, c: u64) -> u8
        requires last { at ≡ index_of entries.now.tol entries.now.palette.now entries.now.n last }
        requires cached { Cached entries.now.tol entries.now.palette.now entries.now.n self.old.colors self.old.indices }
        ensures { (result ≡ index_of entries.now.tol entries.now.palette.now entries.now.n c)
            × Cached entries.now.tol entries.now.palette.now entries.now.n self.new.colors self.new.indices }
    {
        if c == last {
            return at;
        }
        let s = slot(c);
        if self.colors[s] == c {
            return self.indices[s];
        }
        let k = entries.index_of(c) as u8;
        self.colors[s] = c;
        self.indices[s] = k;
        k
    }
}

// The indices of the first m colours; how many of them escape.
pub fn assign(
    cells: &[u64; 1024],
    m: usize,
    palette: &[u64; 64],
    n: usize,
    tol: u64,
    indices: &mut [u8; 1024],
) -> usize
    requires { (m ≤ 1024) × (1 ≤ n) × (n ≤ 64) }
    ensures { (result ≡ escapes_of tol palette.now n m (λ j. get_or cells.now j 0))
        × (indices.new ≡ laid (λ j. index_of tol palette.now n (get_or cells.now j 0)) indices.old 0 m)
        × (result ≤ m) }
{
    let entries = Entries::new(palette, n, tol);
    let mut last = palette[0];
    let mut at = 0;
    let mut memory = Memory {
        colors: [last; 256],
        indices: [0; 256],
    };
    let mut escapes = 0;
    for i in 0..m {
        let c = cells[i];
        at = memory.index_next(&entries, last, at, c);
        last = c;
        indices[i] = at;
        if usize::from(at) == n {
            escapes += 1;
        }
    }
    escapes
}
