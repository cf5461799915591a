// The runs that start at one place: what they add to a path's cost, and their offers to the planner's table.
#![tactic(auto)]

ghost use Rattle.std.specs.Prelude.{◌≡◌, Bool, true, false, List, [], ◌∷◌, ℕ, ◌+◌, ◌≤◌, ◌<◌, ltb, get_or};
ghost use Rattle.std.specs.Float.{binary32};
ghost use Rattle.std.specs.Float.Ieee.{add};
ghost use Rattle.base.specs.Pick.{pick};
ghost use Rattle.base.specs.Tests.{every};
ghost use Rattle.base.specs.Upto.{number};
ghost use Rattle.paths.specs.Cells.{above_length};
ghost use Rattle.paths.specs.Plan as P;
ghost use Rattle.relax.specs.JumpLaws.{Tables};
ghost use Rattle.relax.specs.Jumps.{length_from, Within, drawn};
ghost use Rattle.relax.specs.Table.{table_of};
ghost use Rattle.sums.specs.Sums.{row_of};
ghost use Rattle.syntax.specs.Runs.{may_copy};
ghost use Rattle.starts.specs.Starts.{job_in, head_from};

use cells::{draws_from, reference_in, sent_from};
use draws::{Start, draw};
use measure::Lengths;
use rates::index_bits;
use relax::Paths;
use sums::{RunSums, row_of};

// The size and the number of the cells, the greatest index, and what the runs' kinds and an index run's share of the count cost.
#[derive(Clone, Copy)]
pub struct Terms {
    pub size: usize,
    pub n: usize,
    pub most: u32,
    pub r0: f32,
    pub r1: f32,
    pub share: f32,
}

// A block to be planned: its cells and those above them, how far its runs go, and the tables of the sums.
#[derive(Clone, Copy)]
pub struct Task<'a> {
    pub terms: Terms,
    pub xs: &'a [u8; 1024],
    pub above: &'a [u8; 1024],
    pub lengths: &'a Lengths,
    pub sums: &'a RunSums,
    ghost few: { terms.n ≤ 1024 },
    ghost some: { 1 ≤ terms.most },
    ghost most: { terms.most ≤ 64 },
    ghost measured: { Tables terms.size terms.n xs.now above.now lengths.now.index lengths.now.above lengths.now.next },
}

// What the run-type flag of an index run at p costs.
fn flag_bits(size: usize, n: usize, p: usize, k: bool, r0: f32) -> f32
    requires { p < n }
    ensures { result ≡ pick (every (may_copy size p k ∷ ltb (p + 1) n ∷ [])) r0 (number 0) }
{
    if !k && size <= p && p + 1 < n {
        r0
    } else {
        0.0
    }
}

// How many indices could be sent at p.
fn alphabet_at(most: u32, p: usize) -> u32
    requires { most ≤ 64 }
    ensures { result ≡ P.alphabet_at most p }
{
    if p == 0 { most + 1 } else { most }
}

// What an index run at p makes of the cost c, but for its length.
fn head_bits(t: Terms, p: usize, k: bool, c: f32, sent: u32) -> f32
    requires { (p < t.n) × (1 ≤ t.most) × (t.most ≤ 64) }
    ensures { result ≡ head_from t.size t.n t.most t.r0 t.share p k c sent }
{
    let flag = flag_bits(t.size, t.n, p, k, t.r0);
    c + flag + index_bits(sent, alphabet_at(t.most, p)) + t.share
}

impl Task<'_> {
    // The index runs from p, after a path of cost c whose last run is of kind k.
    pub fn index_run(&self, paths: &mut Paths, p: usize, k: bool, c: f32)
        requires { p < self.now.terms.n }
        ensures { table_of paths.new
            ≡ P.indexed (job_in self.now.terms self.now.xs.now self.now.sums.now.short self.now.sums.now.full) p k c (table_of paths.old) }
    {
        let v = self.xs[p];
        let f = reference_in(self.xs, self.above, p, k);
        if draws_from(p, v, f) {
            let sent = sent_from(p, v, f);
            let start = Start {
                n: self.terms.n,
                p,
                k,
                head: head_bits(self.terms, p, k, c, sent),
                row: row_of(false, sent),
            };
            draw(paths, self.lengths, self.sums, start);
        }
    }
}

// The copy-above run from p, where one can start.
pub fn above_run(
    paths: &mut Paths,
    above_len: &[u16; 1026],
    sums: &RunSums,
    t: Terms,
    p: usize,
    k: bool,
    c: f32,
)
    requires { (p < t.n) × (t.n ≤ 1024) × (p + get_or above_len.now p 0 ≤ t.n) }
    ensures { (xs : List ℕ) → get_or above_len.now p 0 ≡ above_length t.size t.n xs p
        → table_of paths.new
        ≡ P.copied (job_in t xs sums.now.short sums.now.full) p k c (table_of paths.old) }
{
    if k || p < t.size {
        return;
    }
    let len = usize::from(above_len[p]);
    if len > 0 {
        paths.copy(sums, t.r1, t.n, p, k, c, len);
    }
}
