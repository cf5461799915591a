// The index runs that start at one place: the early stops, found by the tables of the cells, and the whole length.
#![tactic(auto)]

ghost use Rattle.std.specs.Prelude.{◌≡◌, ◌≤◌, ◌<◌};
ghost use Rattle.std.specs.Float.{binary32};
ghost use Rattle.std.specs.Float.Ieee.{add};
ghost use Rattle.relax.specs.Jumps.{length_from, first_stop, Skips, halted, Within, drawn};
ghost use Rattle.relax.specs.Table.{table_of};

use measure::Lengths;
use relax::{Paths, length_bits};
use sums::RunSums;

// Where index runs start: at p, after a run of kind k, of n cells, with what they cost but for their length, and their row of the tables of sums.
#[derive(Clone, Copy)]
pub struct Start {
    pub n: usize,
    pub p: usize,
    pub k: bool,
    pub head: f32,
    pub row: usize,
}

// Where an index run from p may stop first.
fn first_stop(lengths: &Lengths, p: usize) -> usize
    requires { p < 1024 }
    ensures { result ≡ first_stop lengths.now.above lengths.now.next p }
{
    if lengths.above[p + 1] == 0 {
        usize::from(lengths.next[p + 1])
    } else {
        p + 1
    }
}

// The early stops from `first` on, below `end`: each is one offer.
// Stays a while: each stop is found from the one before.
fn stops(paths: &mut Paths, next: &[u16; 1026], sums: &RunSums, s: Start, first: usize, end: usize)
    requires { (s.row < 4) × (s.p < first) × (end ≤ s.n) × (s.n ≤ 1024) × Skips next.now end }
    ensures { table_of paths.new
        ≡ halted end next.now end (λ q. add binary32 s.head (length_from sums.now.short sums.now.full s.row s.n s.p q)) s.p s.k first (table_of paths.old) }
{
    let mut q = first;
    while q < end {
        let c = s.head + length_bits(sums, s.row, s.n, s.p, q);
        paths.relax(q * 2, c, s.p, s.k);
        q = usize::from(next[q + 1]);
    }
}

// The index runs from p: the early stops, and the whole length.
pub fn draw(paths: &mut Paths, lengths: &Lengths, sums: &RunSums, s: Start)
    requires { (s.row < 4) × (s.n ≤ 1024) × Within lengths.now.index lengths.now.above lengths.now.next s.n s.p }
    ensures { table_of paths.new
        ≡ drawn lengths.now.index lengths.now.above lengths.now.next (λ q. add binary32 s.head (length_from sums.now.short sums.now.full s.row s.n s.p q)) s.p s.k (table_of paths.old) }
{
    let end = s.p + usize::from(lengths.index[s.p]);
    let first = first_stop(lengths, s.p);
    stops(paths, &lengths.next, sums, s, first, end);
    let c = s.head + length_bits(sums, s.row, s.n, s.p, end);
    paths.relax(end * 2, c, s.p, s.k);
}
