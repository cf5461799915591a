// The two tables of sums, made once for a model: what the prefixes of the runs' lengths cost.
#![tactic(auto)]

ghost use Rattle.std.specs.Prelude.{◌≡◌, ◌+◌, ◌*◌, ◌≤◌, ◌<◌};
ghost use Rattle.sums.specs.Sums.{row_of, full_sum, with_bits, short_sum, Sums};
ghost use Rattle.sums.specs.SumLaws.{row_laid};

use bins::run_class;
use rates::{RateModel, bin_rate, number};

// Stays flat, row * 12 + k: the definitions Sums and run_from read one list.
// A row for each kind of run: what k ones cost, ended by a zero with the suffix of such a run, and not ended.
#[derive(Clone, Copy)]
pub struct RunSums {
    pub short: [f32; 48],
    pub full: [f32; 48],
}

// A sum with the k - 1 bits of the suffix that goes with a prefix of k.
fn with_bits(sum: f32, k: u32) -> f32
    requires { k < 12 }
    ensures { result ≡ with_bits k sum }
{
    if k < 2 { sum } else { sum + number(k - 1) }
}

// One step of a row, where k ones cost `sum`: what they cost ended, and what k + 1 ones cost.
fn row_step(m: RateModel, above: bool, sent: u32, k: u32, sum: f32) -> (f32, f32)
    requires { (k < 12) × (sum ≡ full_sum m above sent k) }
    ensures { (result.0 ≡ short_sum m above sent k) × (result.1 ≡ full_sum m above sent (k + 1)) }
{
    let class = run_class(above, sent, k);
    let zero = sum + bin_rate(m, class * 2);
    let one = sum + bin_rate(m, class * 2 + 1);
    (with_bits(zero, k), one)
}

impl RunSums {
    // The row of one kind of run, in both tables.
    fn fill_row(&mut self, m: RateModel, above: bool, sent: u32, row: usize)
        requires { row < 4 }
        ensures { (self.new.short ≡ row_laid (short_sum m above sent) self.old.short row)
            × (self.new.full ≡ row_laid (full_sum m above sent) self.old.full row) }
    {
        let mut sum: f32 = 0.0;
        for k in 0..12 {
            let (ended, next) = row_step(m, above, sent, k as u32, sum);
            self.short[row * 12 + k] = ended;
            self.full[row * 12 + k] = sum;
            sum = next;
        }
    }
}

// The tables of a model.
pub fn run_sums(m: RateModel) -> RunSums
    ensures { Sums m result.short result.full }
{
    let mut sums = RunSums {
        short: [0.0; 48],
        full: [0.0; 48],
    };
    sums.fill_row(m, false, 0, 0);
    sums.fill_row(m, false, 1, 1);
    sums.fill_row(m, false, 3, 2);
    sums.fill_row(m, true, 3, 3);
    sums
}

// The row of a kind of run.
pub fn row_of(above: bool, sent: u32) -> usize
    ensures { (result ≡ row_of above sent) × (result < 4) }
{
    if above {
        3
    } else if sent == 0 {
        0
    } else if sent < 3 {
        1
    } else {
        2
    }
}
