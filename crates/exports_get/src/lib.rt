// The readers of single codes for other languages, nothing required. An answer is three numbers laid at the start of `out`, as far as it reaches: 0, the value and the next place; or a refusal's number, 0 and its place. Outside a reader's domain nothing is laid.
#![tactic(auto)]

ghost use Rattle.std.specs.Prelude.{◌≡◌, [], ◌∷◌, ◌≤◌, length, take, set};
ghost use Rattle.std.proofs.lemmas.List.Edits.{sets};
ghost use Rattle.get.specs.As.{answer_of};
ghost use Rattle.exports_get.specs.Laid.{three, bin_out, bits_out, tb_out, egk_out, held_out, count_out, run_out, reuse_out, flags_out};

use get::BinReader;
use getbits::{bits_at, tb_at};
use getcount::count_at;
use getgolomb::{egk_at, held_egk_at};
use getreuse::reuse_at;
use getrun::run_at;
use laying::store;
use refusal::Refused;

// Three numbers.
fn lay(out: &mut [u64], number: u64, value: u64, place: u64)
    ensures { out.new ≡ sets out.old 0 (number ∷ value ∷ place ∷ []) }
{
    store(out, 0, number);
    store(out, 1, value);
    store(out, 2, place);
}

// A reader's answer, and the place after it.
fn lay_answer(out: &mut [u64], answer: Result<u32, Refused>, place: usize)
    ensures { out.new ≡ sets out.old 0 (three (answer_of answer place)) }
{
    match answer {
        Ok(value) => lay(out, 0, u64::from(value), place as u64),
        Err(refused) => {
            let number = u8::from(refused.refusal);
            lay(out, u64::from(number), 0, refused.place as u64);
        }
    }
}

// A bin of class `class`, 0 or 1.
#[tactic(auto, unfolding(crate::specs::Laid::bin_out))]
#[unsafe(no_mangle)]
pub extern "C" fn velomitra_bin_at(list: &[u8], at: usize, class: u8, out: &mut [u64])
    ensures { out.new ≡ sets out.old 0 (bin_out class list.now at) }
{
    let mut reader = BinReader { list, at };
    let bin = reader.bin(class);
    lay_answer(out, bin.map(u32::from), reader.at);
}

// A value of n bits.
#[tactic(auto, unfolding(crate::specs::Laid::bits_out))]
#[unsafe(no_mangle)]
pub extern "C" fn velomitra_bits_at(list: &[u8], at: usize, n: u32, out: &mut [u64])
    ensures { out.new ≡ sets out.old 0 (bits_out n list.now at) }
{
    if n > 32 {
        return;
    }
    let mut reader = BinReader { list, at };
    let value = bits_at(&mut reader, n);
    lay_answer(out, value, reader.at);
}

// Truncated binary over n values.
#[tactic(auto, unfolding(crate::specs::Laid::tb_out))]
#[unsafe(no_mangle)]
pub extern "C" fn velomitra_tb_at(list: &[u8], at: usize, n: u32, out: &mut [u64])
    ensures { out.new ≡ sets out.old 0 (tb_out n list.now at) }
{
    if !(1..=65536).contains(&n) {
        return;
    }
    let mut reader = BinReader { list, at };
    let value = tb_at(&mut reader, n);
    lay_answer(out, value, reader.at);
}

// Exp-Golomb of an order.
#[tactic(auto, unfolding(crate::specs::Laid::egk_out))]
#[unsafe(no_mangle)]
pub extern "C" fn velomitra_egk_at(list: &[u8], at: usize, order: u32, out: &mut [u64])
    ensures { out.new ≡ sets out.old 0 (egk_out order list.now at) }
{
    if order > 13 {
        return;
    }
    let mut reader = BinReader { list, at };
    let value = egk_at(&mut reader, order);
    lay_answer(out, value, reader.at);
}

// Exp-Golomb of an order, of values up to `top`.
#[tactic(auto, unfolding(crate::specs::Laid::held_out))]
#[unsafe(no_mangle)]
pub extern "C" fn velomitra_held_egk_at(
    list: &[u8],
    at: usize,
    order: u32,
    top: u32,
    out: &mut [u64],
)
    ensures { out.new ≡ sets out.old 0 (held_out order top list.now at) }
{
    if order > 13 {
        return;
    }
    let mut reader = BinReader { list, at };
    let value = held_egk_at(&mut reader, order, top);
    lay_answer(out, value, reader.at);
}

// The index count, less 1, where M is m.
#[tactic(auto, unfolding(crate::specs::Laid::count_out))]
#[unsafe(no_mangle)]
pub extern "C" fn velomitra_count_at(list: &[u8], at: usize, m: u32, out: &mut [u64])
    ensures { out.new ≡ sets out.old 0 (count_out m list.now at) }
{
    if m > 64 {
        return;
    }
    let mut reader = BinReader { list, at };
    let value = count_at(&mut reader, m);
    lay_answer(out, value, reader.at);
}

// A run's further cells, of at most `longest`.
#[tactic(auto, unfolding(crate::specs::Laid::run_out))]
#[unsafe(no_mangle)]
pub extern "C" fn velomitra_run_at(
    list: &[u8],
    at: usize,
    longest: u32,
    above: bool,
    sent: u32,
    out: &mut [u64],
)
    ensures { out.new ≡ sets out.old 0 (run_out longest above sent list.now at) }
{
    if longest > 1024 {
        return;
    }
    let mut reader = BinReader { list, at };
    let value = run_at(&mut reader, longest, above, sent);
    lay_answer(out, value, reader.at);
}

// The reuse runs of as many predictor entries as `flags` has: the flags, off on a refusal, and the number reused.
#[tactic(auto, unfolding(crate::specs::Laid::reuse_out, crate::specs::Laid::flags_out))]
#[unsafe(no_mangle)]
pub extern "C" fn velomitra_reuse_at(
    list: &[u8],
    at: usize,
    limit: u32,
    flags: &mut [bool],
    out: &mut [u64],
)
    ensures flags { flags.new ≡ flags_out limit list.now at flags.old }
    ensures laid { out.new ≡ sets out.old 0 (reuse_out limit (length flags.old) list.now at) }
{
    let count = flags.len();
    if count > 128 {
        return;
    }
    let mut reader = BinReader { list, at };
    let mut shown = [false; 128];
    match reuse_at(&mut reader, limit, count as u32) {
        Ok(reuse) => {
            shown = reuse.flags;
            lay_answer(out, Ok(reuse.reused), reader.at);
        }
        Err(refused) => lay_answer(out, Err(refused), reader.at),
    }
    flags.copy_from_slice(&shown[..count]);
}
