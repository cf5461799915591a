// The walk back over the planner's table, and the runs of the path that it finds.
#![tactic(auto)]

ghost use Rattle.std.specs.Prelude.{◌≡◌, Bool, true, false, ℕ, ◌+◌, ◌-◌, ◌≤◌, ◌<◌, get_or, replicate};
ghost use Rattle.std.proofs.lemmas.List.Edits.{sets};
ghost use Rattle.paths.specs.Plan.{slot, trail};
ghost use Rattle.walk.specs.Points.{Falls, LaidPoints, no_run, run_in, points_in, Rising, runs_in};

use cells::{reference_in, sent_from};
use model::PaletteRun;

// The slot of place q after a run of kind k.
fn slot_of(q: usize, k: bool) -> usize
    requires { q ≤ 1024 }
    ensures { (result ≡ slot q k) × (result < 2050) }
{
    if k { q * 2 + 1 } else { q * 2 }
}

// Lays the ends of the path's runs up to q, in order, and answers how many.
// Stays a recursion: the walk goes back, and the ends are laid from the first on. Stays two lists: the definition LaidPoints speaks of each.
pub fn lay(
    pos: &[u16; 2050],
    st: &[bool; 2050],
    q: usize,
    k: bool,
    ends: &mut [u16; 1024],
    kinds: &mut [bool; 1024],
) -> usize
    requires { (q ≤ 1024) × Falls pos.now }
    ensures within { result ≤ q }
    ensures laid { (f : ℕ) → q ≤ f → LaidPoints (trail pos.now st.now f q k) result ends.old ends.new kinds.old kinds.new }
{
    if q == 0 {
        return 0;
    }
    let s = slot_of(q, k);
    let p = usize::from(pos[s]);
    let i = lay(pos, st, p, st[s], ends, kinds);
    ends[i] = q as u16;
    kinds[i] = k;
    i + 1
}

// The run from p, after a run of kind pk, up to q, of kind k.
pub fn run_to(
    xs: &[u8; 1024],
    above: &[u8; 1024],
    p: usize,
    pk: bool,
    q: usize,
    k: bool,
) -> PaletteRun
    requires { (p < q) × (q ≤ 1024) }
    ensures { result ≡ run_in xs.now above.now p pk q k }
{
    let sent = if k {
        0
    } else {
        sent_from(p, xs[p], reference_in(xs, above, p, pk))
    };
    PaletteRun {
        above: k,
        sent,
        more: (q - p - 1) as u32,
        start: p as u32,
    }
}

// The runs between the first `count` of the ends.
// Stays lists with a count: the definition points_in takes the count beside them.
pub fn runs_of(
    xs: &[u8; 1024],
    above: &[u8; 1024],
    ends: &[u16; 1024],
    kinds: &[bool; 1024],
    count: usize,
) -> [PaletteRun; 1024]
    requires { (count ≤ 1024) × Rising 0 (points_in ends.now kinds.now 0 count) }
    ensures { result ≡ sets (replicate 1024 no_run) 0 (runs_in xs.now above.now 0 false (points_in ends.now kinds.now 0 count)) }
{
    let none = PaletteRun {
        above: false,
        sent: 0,
        more: 0,
        start: 0,
    };
    let mut runs = [none; 1024];
    let mut p: usize = 0;
    let mut k = false;
    for i in 0..count {
        let q = usize::from(ends[i]);
        runs[i] = run_to(xs, above, p, k, q, kinds[i]);
        p = q;
        k = kinds[i];
    }
    runs
}
