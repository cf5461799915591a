// The writer of the index map onto a lent bin list: index count, indices, final-run flag, transpose flag, QP marker and runs.
#![tactic(auto)]

ghost use Rattle.std.specs.Prelude.{◌≡◌, [], ◌++◌, ◌+◌, ◌*◌, ◌^◌, ◌≤◌, ◌<◌, length};
ghost use Rattle.base.specs.Laid.{Laid};
ghost use Rattle.base.specs.Pick.{pick};
ghost use Rattle.flatplan.specs.Flat.{first_of};
ghost use Rattle.h265.specs.Strings.{bit, bin_of, marker};
ghost use Rattle.syntax.specs.Block.{map_bins};
ghost use Rattle.syntax.specs.MapLaws.{CodedOk};

use put::put_bin;
use putcount::put_count;
use putindices::{count_index, final_kind, put_indices};
use putruns::{kind_byte, put_runs};

// The byte of the transpose flag.
fn turn_byte(turned: bool) -> u8
    ensures { result ≡ 2 * 2 + bit turned }
{
    4 + u8::from(turned)
}

// The QP marker, where there are escapes.
#[tactic(auto, using(base::specs::Laid::laid_none))]
fn put_marker(list: &mut [u8], at: usize, escape: bool) -> usize
    requires { at < 2 ^ 63 }
    ensures laid { Laid list.old at (pick escape marker []) result list.new }
    ensures near { result ≤ at + 1 }
{
    if escape {
        return put_bin(list, at, 22);
    }
    at
}

// Final-run flag, transpose flag, QP marker.
fn put_flags(list: &mut [u8], at: usize, fin: bool, turned: bool, escape: bool) -> usize
    requires { at < 2 ^ 62 }
    ensures laid { Laid list.old at (bin_of 1 fin ++ (bin_of 2 turned ++ pick escape marker [])) result list.new }
    ensures near { result ≤ at + 3 }
{
    let p = put_bin(list, at, kind_byte(fin));
    let q = put_bin(list, p, turn_byte(turned));
    put_marker(list, q, escape)
}

// The map of any block; with m = 0 there is at most the QP marker.
pub fn put_map(
    list: &mut [u8],
    at: usize,
    size: u32,
    n: u32,
    m: u32,
    escape: bool,
    turned: bool,
    runs: &[u32],
    count: usize,
) -> usize
    requires { (at < 2 ^ 61) × (1 ≤ size) × (1 ≤ n) × (n ≤ 1024) × (m ≤ 64) × (1 ≤ m → (count ≤ 1024) × (4 * count ≤ length runs.now) × CodedOk size n m (record { turned = turned; runs = first_of runs.now count })) }
    ensures laid { Laid list.old at (map_bins size n m escape (record { turned = turned; runs = first_of runs.now count })) result list.new }
    ensures near { result ≤ at + 100000 }
    ensures short { result ≤ at + (67 + 97 * count) }
{
    if m == 0 {
        return put_marker(list, at, escape);
    }
    let total = count_index(runs, count);
    let fin = final_kind(runs, count);
    let p = put_count(list, at, m, total - 1);
    let q = put_indices(list, p, m, runs, count, total);
    let r = put_flags(list, q, fin, turned, escape);
    put_runs(list, r, size, n, fin, runs, count, total)
}
