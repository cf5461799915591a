// Bins onto a lent list. A bin past the list's end is not stored, and counted all the same: a writer asks no room and answers the place after its last bin.
#![tactic(auto)]

ghost use Rattle.std.specs.Prelude.{[], ◌∷◌, ◌≡◌, ℕ, ◌+◌, ◌^◌, ◌≤◌, ◌<◌, length, ltb};
ghost use Rattle.std.proofs.lemmas.List.Edits.{sets};
ghost use Rattle.base.specs.Laid.{Laid};
ghost use Rattle.base.specs.Pick.{pick};
ghost use Rattle.h265.specs.Strings.{bits, tb};
ghost use Rattle.h265.specs.Strings as S;
ghost use Rattle.put.specs.Words.{bytes, spread};

use bins::{flog, pow2};

// One bin, as its byte.
// Stays a list and a place, here and in all writers: the definition `Laid` goes from a place to the next, as they do.
pub fn put_bin(list: &mut [u8], at: usize, byte: u8) -> usize
    requires { at < 2 ^ 63 }
    ensures { Laid list.old at (byte ∷ []) result list.new }
{
    laying::put(list, at, byte)
}

// The N low bytes of a word, the lowest first, where the list has room for them.
fn store<const N: usize>(list: &mut [u8], at: usize, w: u64)
    requires { (N ≤ 8) × (at + N ≤ length list.old) }
    ensures { list.new ≡ sets list.old at (bytes N w) }
{
    list[at..at + N].copy_from_slice(&w.to_le_bytes()[..N]);
}

// The n low bytes of a word, the lowest first, where the list has room for them: the first ones and the last ones, which may be some of the same.
pub fn lay_word(list: &mut [u8], at: usize, w: u64, n: usize) -> usize
    requires { (n ≤ 8) × (at + n ≤ length list.old) }
    ensures { Laid list.old at (bytes n w) result list.new }
{
    if 4 <= n {
        let past = n - 4;
        store::<4>(list, at, w);
        store::<4>(list, at + past, w >> (8 * past));
        return at + n;
    }
    if 2 <= n {
        let past = n - 2;
        store::<2>(list, at, w);
        store::<2>(list, at + past, w >> (8 * past));
        return at + n;
    }
    if n == 1 {
        list[at] = (w % 256) as u8;
        return at + 1;
    }
    at
}

// Seven bits as the bytes of a word, the high bit lowest.
pub fn spread_seven(x: u64) -> u64
    requires { x ≤ 255 }
    ensures { (result ≡ spread x) × (result < 2 ^ 56) }
{
    (x * 18049651735527937 / 64) & 282578800148737
}

// The n low bits likewise.
fn spread_bits(value: u32, n: u32) -> u64
    requires { n ≤ 7 }
    ensures { bytes n result ≡ bits n value }
{
    spread_seven((u64::from(value) << (7 - n)) % 128)
}

// Eight bits likewise.
fn spread_eight(value: u32) -> u64
    ensures { bytes 8 result ≡ bits 8 value }
{
    let high = spread_seven(u64::from(value / 2 % 128));
    high + u64::from(value % 2) * 72057594037927936
}

// The n low bits, each stored where the list has room for it: the lowest after the others, eight with room as a word.
fn put_long(list: &mut [u8], at: usize, value: u32, n: u32) -> usize
    requires { (n ≤ 32) × (at + 32 < 2 ^ 63) }
    ensures { Laid list.old at (bits n value) result list.new }
{
    if n == 0 {
        return at;
    }
    if n == 8 && at + 8 <= list.len() {
        return lay_word(list, at, spread_eight(value), 8);
    }
    let to = put_long(list, at, value >> 1, n - 1);
    put_bin(list, to, (value % 2) as u8)
}

// Fixed length: the n low bits, high bit first.
pub fn put_bits(list: &mut [u8], at: usize, value: u32, n: u32) -> usize
    requires { (n ≤ 32) × (at + 32 < 2 ^ 63) }
    ensures { Laid list.old at (bits n value) result list.new }
{
    if n <= 7 && at + n as usize <= list.len() {
        return lay_word(list, at, spread_bits(value, n), n as usize);
    }
    put_long(list, at, value, n)
}

// What is sent for a value: the value, or raised by the number of short strings.
fn raised(short: u32, v: u32) -> u32
    requires { (v ≤ 65536) × (short ≤ 131072) }
    ensures { result ≡ pick (ltb v short) v (v + short) }
{
    if v < short { v } else { v + short }
}

// In how many bits: k, or one more.
fn bits_for(k: u32, short: u32, v: u32) -> u32
    requires { k ≤ 31 }
    ensures { (result ≡ pick (ltb v short) k (k + 1)) × (result ≤ k + 1) }
{
    if v < short { k } else { k + 1 }
}

// Truncated binary over an alphabet whose logarithm is k and which has so many short strings.
pub fn put_cut(list: &mut [u8], at: usize, k: u32, short: u32, v: u32) -> usize
    requires { (k ≤ 16) × (short ≤ 131072) × (v ≤ 65536) × (at + 32 < 2 ^ 63) }
    ensures { ((n : ℕ) → k ≡ S.flog n → short ≡ S.short n → Laid list.old at (tb n v) result list.new) × (result ≤ at + 32) }
{
    put_bits(list, at, raised(short, v), bits_for(k, short, v))
}

// The short strings of an alphabet of n values, whose logarithm is k.
pub fn shorts(n: u32, k: u32) -> u32
    requires { (1 ≤ n) × (n ≤ 65536) × (k ≡ S.flog n) }
    ensures { (result ≡ S.short n) × (result ≤ 131072) × (k ≤ 16) }
{
    pow2(k + 1) - n
}

// Truncated binary over n values.
pub fn put_tb(list: &mut [u8], at: usize, n: u32, v: u32) -> usize
    requires { (1 ≤ n) × (n ≤ 65536) × (v < n) × (at + 32 < 2 ^ 63) }
    ensures laid { Laid list.old at (tb n v) result list.new }
    ensures near { result ≤ at + 32 }
{
    let k = flog(n);
    let short = shorts(n, k);
    put_cut(list, at, k, short, v)
}
