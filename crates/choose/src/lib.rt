// The palette that the predictor and the representatives make; a colour is a packed number.
#![tactic(auto)]

ghost use Rattle.std.specs.Prelude.{◌≡◌, ◌++◌, ◌-◌, ◌<◌, ◌≤◌, length, take, drop};
ghost use Rattle.choose.specs.Choose.{without, chosen, painting_of};
ghost use Rattle.choose.specs.Turns.{Offered};

use reps::Reps;

// A palette, its reused entries first, with a flag for each predictor entry; 0 or off behind a count.
// Stays arrays with counts: no heap, and `painting_of` names the two lists.
#[derive(Clone, Copy)]
pub struct Painting {
    pub size: usize,
    pub reused: usize,
    pub palette: [u64; 64],
    pub flags: [bool; 128],
}

// What stands at r is taken out of the first m.
fn remove(list: &mut [u64; 64], m: usize, r: usize)
    requires { (r < m) × (m ≤ 64) }
    ensures { (take (m - 1) list.new ≡ without r (take m list.old)) × (length list.new ≡ 64) }
{
    list.copy_within(r + 1..m, r);
}

// The first m of a list go behind the first p of a palette.
fn rest(left: &[u64; 64], palette: &mut [u64; 64], p: usize, total: usize)
    requires { (p ≤ total) × (total ≤ 64) }
    ensures { (take total palette.new ≡ take p palette.old ++ take (total - p) left.now)
        × (drop total palette.new ≡ drop total palette.old) }
{
    palette[p..total].copy_from_slice(&left[..total - p]);
}

impl Painting {
    // The predictor's entry number k is offered to the representatives that are left.
    fn offer(&mut self, left: &mut [u64; 64], k: usize, e: u64, tol: u64)
        requires { (self.old.reused ≤ self.old.size) × (self.old.size ≤ 64) × (k < 128) }
        ensures offered { Offered tol e self.old.size self.old.reused self.new.reused k left.old left.new self.old.palette self.new.palette
            self.old.flags self.new.flags }
        ensures kept { self.new.size ≡ self.old.size }
    {
        let m = self.size - self.reused;
        match reps::hit(&left[..m], e, tol) {
            Some(r) => {
                remove(left, m, r);
                self.palette[self.reused] = e;
                self.flags[k] = true;
                self.reused += 1;
            }
            None => self.flags[k] = false,
        }
    }
}

// Palette and flags from the predictor's entries and the representatives.
pub fn choose(entries: &[u64], found: Reps, tol: u64) -> Painting
    requires { (length entries.now ≤ 128) × (found.count ≤ 64) }
    ensures { result ≡ painting_of (chosen tol entries.now (take found.count found.list)) }
{
    let mut left = found.list;
    let mut painting = Painting {
        size: found.count,
        reused: 0,
        palette: [0; 64],
        flags: [false; 128],
    };
    for (k, e) in entries.iter().enumerate() {
        painting.offer(&mut left, k, *e, tol);
    }
    rest(&left, &mut painting.palette, painting.reused, found.count);
    painting
}
