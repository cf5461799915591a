// Run records between a list that the caller lends and the arrays of 1024 that the codec works on.
#![tactic(auto)]

ghost use Rattle.std.specs.Prelude.{◌≡◌, ◌≤◌, min, length, replicate};
ghost use Rattle.syntax.specs.Records.{no_run};
ghost use Rattle.runlist.specs.Lists.{laid_on};

use model::PaletteRun;

// The first n records of an array stand at the front of the lent list; what stood past them stays.
#[tactic(auto, unfolding(crate::specs::Lists::laid_on))]
pub fn lay_runs(list: &mut [PaletteRun], runs: [PaletteRun; 1024], n: usize)
    requires { (n ≤ 1024) × (n ≤ length list.old) }
    ensures { list.new ≡ laid_on list.old runs n }
{
    list[..n].copy_from_slice(&runs[..n]);
}

// The first n records of the lent list, in front of what the array had.
#[tactic(auto, unfolding(crate::specs::Lists::laid_on))]
pub fn take_runs(list: &[PaletteRun], mut runs: [PaletteRun; 1024], n: usize) -> [PaletteRun; 1024]
    requires { (n ≤ 1024) × (n ≤ length list.now) }
    ensures { result ≡ laid_on runs list.now n }
{
    runs[..n].copy_from_slice(&list[..n]);
    runs
}

// As many records as an array takes.
pub fn capped(n: usize) -> usize
    ensures { (result ≡ min n 1024) × (result ≤ 1024) × (result ≤ n) }
{
    n.min(1024)
}

// No records.
pub fn no_runs() -> [PaletteRun; 1024]
    ensures { result ≡ replicate 1024 no_run }
{
    [PaletteRun {
        above: false,
        sent: 0,
        more: 0,
        start: 0,
    }; 1024]
}
