// The writer of a run's length, palette_run_prefix with palette_run_suffix, onto a lent bin list.
#![tactic(auto)]

ghost use Rattle.std.specs.Prelude.{◌≡◌, ℕ, ◌+◌, ◌^◌, ◌≤◌, ◌<◌, ltb, length};
ghost use Rattle.base.specs.Laid.{Laid};
ghost use Rattle.base.specs.Pick.{pick};
ghost use Rattle.h265.specs.Strings.{unary, run_class, prefix_of, suffix_bins, run_bins};
ghost use Rattle.put.specs.Words.{bytes};
ghost use Rattle.putrun.specs.Few.{ones_of, few_longest, few_size, few_classes};
ghost use Rattle.putrun.specs.Word.{word_from};

use bins::{flog, pow2, suffixes};
use put::{lay_word, put_bin, put_bits, put_tb, spread_seven};

// 2 where a number is past another, else 0: the step to the next class.
fn past(n: u32, sent: u32) -> u64
    ensures { (result ≡ pick (ltb n sent) 2 0) × (result ≤ 2) }
{
    if n < sent { 2 } else { 0 }
}

// The bytes of the prefix's zeros in base 256, that of bin 0 lowest.
fn word_of(above: bool, sent: u32) -> u64
    ensures { result ≡ word_from above sent 0 }
{
    if above {
        return 86236074512;
    }
    60365212678 + past(0, sent) + past(2, sent)
}

// So many ones, a byte each.
fn ones_of(ones: u32) -> u64
    requires { ones ≤ 7 }
    ensures { result ≡ ones_of ones }
{
    72340172838076673 % (1 << (8 * ones))
}

// The bins of a prefix: its ones, and a zero unless they are the most.
fn prefix_size(most: u32, ones: u32) -> usize
    requires { ones ≤ 7 }
    ensures { (result ≡ ones + pick (ltb ones most) 1 0) × (result ≤ 8) }
{
    ones as usize + usize::from(ones < most)
}

// The prefix of at most seven ones where the list has room for it.
fn lay_prefix(list: &mut [u8], at: usize, most: u32, ones: u32, above: bool, sent: u32) -> usize
    requires { (ones ≤ 7) × (ones ≤ most) × (at + 8 ≤ length list.old) }
    ensures { Laid list.old at (unary (run_class above sent) 0 most ones) result list.new × (result ≤ at + 8) }
{
    let w = word_of(above, sent) + ones_of(ones);
    lay_word(list, at, w, prefix_size(most, ones))
}

// The prefix, each bin stored where the list has room for it.
fn put_bins(list: &mut [u8], at: usize, most: u32, ones: u32, above: bool, sent: u32) -> usize
    requires { (ones ≤ most) × (most ≤ 32) × (at + 32 < 2 ^ 63) }
    ensures laid { Laid list.old at (unary (run_class above sent) 0 most ones) result list.new }
    ensures near { result ≤ at + 32 }
{
    let mut to = at;
    let mut w = word_of(above, sent);
    for _ in 0..ones {
        to = put_bin(list, to, (w % 256) as u8 + 1);
        w /= 256;
    }
    if ones < most {
        return put_bin(list, to, (w % 256) as u8);
    }
    to
}

// The prefix in truncated unary: `ones` of at most `most`, each bin of its class.
fn put_prefix(list: &mut [u8], at: usize, most: u32, ones: u32, above: bool, sent: u32) -> usize
    requires { (ones ≤ most) × (most ≤ 32) × (at + 64 < 2 ^ 63) }
    ensures laid { Laid list.old at (unary (run_class above sent) 0 most ones) result list.new }
    ensures near { result ≤ at + 32 }
{
    if ones <= 7 && at + 8 <= list.len() {
        return lay_prefix(list, at, most, ones, above, sent);
    }
    put_bins(list, at, most, ones, above, sent)
}

// The suffix of a run of `more` further cells of at most `longest`.
fn put_suffix(list: &mut [u8], at: usize, longest: u32, more: u32) -> usize
    requires { (more ≤ longest) × (longest ≤ 1024) × (at + 32 < 2 ^ 63) }
    ensures laid { Laid list.old at (suffix_bins longest more) result list.new }
    ensures near { result ≤ at + 32 }
{
    if more == 0 {
        return at;
    }
    let k = flog(more);
    let p = pow2(k);
    if 2 * p <= longest {
        return put_bits(list, at, more - p, k);
    }
    put_tb(list, at, suffixes(longest, p), more - p)
}

// The prefix's ones.
fn prefix_of(more: u32) -> u32
    requires { more ≤ 1024 }
    ensures { result ≡ prefix_of more }
{
    if more == 0 { 0 } else { flog(more) + 1 }
}

// The same of any run: prefix, then suffix; nothing where there is no choice.
fn put_any(list: &mut [u8], at: usize, longest: u32, above: bool, sent: u32, more: u32) -> usize
    requires { (more ≤ longest) × (longest ≤ 1024) × (at + 64 < 2 ^ 63) }
    ensures laid { Laid list.old at (run_bins longest above sent more) result list.new }
    ensures near { result ≤ at + 64 }
{
    if longest == 0 {
        return at;
    }
    let most = flog(longest) + 1;
    let q = put_prefix(list, at, most, prefix_of(more), above, sent);
    put_suffix(list, q, longest, more)
}

// Of a run of fewer than eight further cells: the shortest longest run that does not cut its bins short.
fn few_longest(more: u32) -> u32
    requires { more < 8 }
    ensures { result ≡ few_longest more }
{
    (2290631713 >> (4 * more)) % 16
}

// Of such a run: the number of its bins.
fn few_size(more: u32) -> usize
    requires { more < 8 }
    ensures { (result ≡ few_size more) × (result ≤ 6) }
{
    let sizes: u32 = 1717978145;
    ((sizes >> (4 * more)) % 16) as usize
}

// Of such a run: the classes of its prefix.
fn few_classes(above: bool, sent: u32, more: u32) -> u64
    ensures { (result ≡ few_classes (word_from above sent 0) more) × (result < 2 ^ 32) }
{
    let w = word_of(above, sent);
    if more < 4 {
        w % 16777216
    } else {
        w % 4294967296
    }
}

// Of such a run: its bins as the bytes of a word.
fn few_word(above: bool, sent: u32, more: u32) -> u64
    requires { more < 8 }
    ensures { (longest : ℕ) → few_longest more ≤ longest → bytes (few_size more) result ≡ run_bins longest above sent more }
{
    let x = (8535573020886974464 >> (8 * more)) % 256;
    few_classes(above, sent, more) + spread_seven(x)
}

// A run of `more` further cells of at most `longest`; nothing where there is no choice.
pub fn put_run(list: &mut [u8], at: usize, longest: u32, above: bool, sent: u32, more: u32) -> usize
    requires { (more ≤ longest) × (longest ≤ 1024) × (at + 64 < 2 ^ 63) }
    ensures laid { Laid list.old at (run_bins longest above sent more) result list.new }
    ensures near { result ≤ at + 64 }
{
    if more < 8 && few_longest(more) <= longest && at + 8 <= list.len() {
        let w = few_word(above, sent, more);
        return lay_word(list, at, w, few_size(more));
    }
    put_any(list, at, longest, above, sent, more)
}
