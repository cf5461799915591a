// The writer of the reuse runs, palette_predictor_run, onto a lent bin list.
#![tactic(auto)]

ghost use Rattle.std.specs.Prelude.{◌≡◌, ◌+◌, ◌^◌, ◌≤◌, ◌<◌, length, drop};
ghost use Rattle.base.specs.Laid.{Laid};
ghost use Rattle.h265.specs.Reuse.{lead, code_of, reuse_bins};

use putgolomb::put_egk;

// The place of the first true flag from `from` on, or their number where there is none.
fn next_reused(flags: &[bool], from: usize) -> usize
    requires { from ≤ length flags.now }
    ensures { result ≡ from + lead (drop from flags.now) }
{
    for i in from..flags.len() {
        if flags[i] {
            return i;
        }
    }
    flags.len()
}

// The run that is sent after a gap.
#[tactic(auto, unfolding(h265::specs::Reuse::code_of))]
fn code_of(gap: usize) -> u32
    requires { gap ≤ 128 }
    ensures { result ≡ code_of gap }
{
    if gap == 0 { 0 } else { gap as u32 + 1 }
}

// The reuse runs of all flags under a palette limit; what is true beyond the limit is not sent.
pub fn put_reuse(list: &mut [u8], at: usize, limit: u32, flags: &[bool]) -> usize
    requires { (limit ≤ 64) × (length flags.now ≤ 128) × (at + 4096 < 2 ^ 63) }
    ensures laid { Laid list.old at (reuse_bins limit flags.now) result list.new }
    ensures near { result ≤ at + 4096 }
{
    let mut to = at;
    let mut idx = 0;
    for _ in 0..limit {
        if flags.len() <= idx {
            return to;
        }
        let next = next_reused(flags, idx);
        if next == flags.len() {
            return put_egk(list, to, 0, 1);
        }
        to = put_egk(list, to, 0, code_of(next - idx));
        idx = next + 1;
    }
    to
}
