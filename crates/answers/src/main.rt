// Replays source 000's answers: computes each record of standard input with the port's functions and prints a line for it, held to the file `stdout`. oracle/README.md has both forms.
#![tactic(auto)]

use exports::{
    velomitra_dequant_escape, velomitra_distance, velomitra_place_above, velomitra_quantize_escape,
    velomitra_scan_pos, velomitra_scan_pos_inv, velomitra_step, velomitra_tolerance,
    velomitra_wrapping_mul,
};
use exports_get::{
    velomitra_bin_at, velomitra_bits_at, velomitra_count_at, velomitra_egk_at,
    velomitra_held_egk_at, velomitra_reuse_at, velomitra_run_at, velomitra_tb_at,
};
use exports_put::{
    velomitra_put_bits, velomitra_put_count, velomitra_put_egk, velomitra_put_reuse,
    velomitra_put_run, velomitra_put_tb,
};
use reading::read_full;
use std::fmt::Write;
use std::{fmt, io};

// The calls that answer a number.
#[derive(Clone, Copy)]
enum Leaf {
    ScanPos,
    ScanPosInv,
    PlaceAbove,
    Step,
    Tolerance,
    Dequant,
    Quantize,
    Distance,
    WrappingMul,
}

// The codes that are written and read.
#[derive(Clone, Copy)]
enum Code {
    Bin,
    Bits,
    Tb,
    Egk,
    Held,
    Count,
    Run,
    Reuse,
}

// What a record asks for.
#[derive(Clone, Copy)]
enum Operation {
    Number(Leaf),
    Put(Code),
    Get(Code),
}

// A record: words, the first of them the operation, and bins.
#[derive(Drop)]
struct Record {
    words: [u32; 8],
    bins: [u8; 32],
}

// Bins or flags, as letters from `a` on.
#[derive(Clone, Copy)]
struct Letters<'a, T>(&'a [T]);

impl From<u32> for Operation {
    // By its number; each other number stands for the last of its kind.
    fn from(number: u32) -> Operation {
        match number {
            1 => Operation::Number(Leaf::ScanPos),
            2 => Operation::Number(Leaf::ScanPosInv),
            0 | 3 => Operation::Number(Leaf::PlaceAbove),
            4 => Operation::Number(Leaf::Step),
            5 => Operation::Number(Leaf::Tolerance),
            6 => Operation::Number(Leaf::Dequant),
            7 => Operation::Number(Leaf::Quantize),
            8 => Operation::Number(Leaf::Distance),
            9..=15 => Operation::Number(Leaf::WrappingMul),
            17 => Operation::Put(Code::Bits),
            18 => Operation::Put(Code::Tb),
            19 => Operation::Put(Code::Egk),
            21 => Operation::Put(Code::Count),
            22 => Operation::Put(Code::Run),
            16..=31 => Operation::Put(Code::Reuse),
            33 => Operation::Get(Code::Bits),
            34 => Operation::Get(Code::Tb),
            35 => Operation::Get(Code::Egk),
            36 => Operation::Get(Code::Held),
            37 => Operation::Get(Code::Count),
            38 => Operation::Get(Code::Run),
            39 => Operation::Get(Code::Reuse),
            _ => Operation::Get(Code::Bin),
        }
    }
}

impl<T: Copy + Into<u8>> fmt::Display for Letters<'_, T> {
    fn fmt<W: fmt::Write>(&self, f: &mut fmt::Formatter<W>) -> fmt::Result {
        for value in self.0 {
            f.write_char(letter((*value).into()))?;
        }
        Ok(())
    }
}

impl Record {
    // The record of 64 bytes.
    fn of(bytes: &[u8; 64]) -> Record {
        let mut words = [0; 8];
        let mut bins = [0; 32];
        let (fours, _) = bytes.as_chunks();
        for (word, four) in words.iter_mut().zip(fours) {
            *word = u32::from_le_bytes(*four);
        }
        bins.copy_from_slice(&bytes[32..]);
        Record { words, bins }
    }

    // The flags that a record has from word 3 on, one bit each.
    fn flags(&self) -> [bool; 128] {
        let mut flags = [false; 128];
        for (k, flag) in flags.iter_mut().enumerate() {
            *flag = self.words[3 + k / 32] >> (k % 32) & 1 == 1;
        }
        flags
    }
}

// The letter of a bin or a flag.
fn letter(bin: u8) -> char {
    match bin {
        0..=25 => char::from(b'a' + bin),
        _ => '?',
    }
}

// Two words as one number.
fn join(low: u32, high: u32) -> u64 {
    (u64::from(high) << 32) + u64::from(low)
}

// A record whose answer is a number.
fn number(leaf: Leaf, record: &Record) -> u64 {
    let [_, a, b, c, d, ..] = record.words;
    let lossless = a == 1;
    let step = velomitra_step(b.cast_signed());
    let most = u64::from(c);
    match leaf {
        Leaf::ScanPos => velomitra_scan_pos(a as usize, b as usize),
        Leaf::ScanPosInv => velomitra_scan_pos_inv(a as usize, b as usize, c as usize),
        Leaf::PlaceAbove => velomitra_place_above(a as usize, b as usize),
        Leaf::Step => step,
        Leaf::Tolerance => velomitra_tolerance(lossless, step),
        Leaf::Dequant => velomitra_dequant_escape(lossless, step, most, d.cast_signed()),
        Leaf::Quantize => velomitra_quantize_escape(lossless, step, most, u64::from(d)),
        Leaf::Distance => velomitra_distance(join(a, b), join(c, d)),
        Leaf::WrappingMul => velomitra_wrapping_mul(join(a, b), join(c, d)),
    }
}

// A value laid in its code from place 0 on; the place after it.
fn put(code: Code, record: &Record, list: &mut [u8]) -> usize {
    let [_, a, b, c, d, ..] = record.words;
    match code {
        Code::Bits => velomitra_put_bits(list, 0, a, b),
        Code::Tb => velomitra_put_tb(list, 0, a, b),
        Code::Egk => velomitra_put_egk(list, 0, a, b),
        Code::Count => velomitra_put_count(list, 0, a, b),
        Code::Run => velomitra_put_run(list, 0, a, b == 1, c, d),
        Code::Bin | Code::Held | Code::Reuse => match record.flags().get(..b as usize) {
            Some(flags) => velomitra_put_reuse(list, 0, a, flags),
            None => 0,
        },
    }
}

// The line of a writer.
fn print_put(rt: &impl Print, code: Code, record: &Record) -> io::Result<()> {
    let mut list = [0u8; 256];
    let next = put(code, record, &mut list);
    println!(rt; "{next}:{}", Letters(&list[..next.min(256)]))
}

// Refusal or 0, value and place; what is read is a single code.
fn get(code: Code, record: &Record, list: &[u8]) -> [u64; 3] {
    let [_, _, at, a, b, c, ..] = record.words;
    let at = at as usize;
    let mut out = [0; 3];
    match code {
        Code::Bits => velomitra_bits_at(list, at, a, &mut out),
        Code::Tb => velomitra_tb_at(list, at, a, &mut out),
        Code::Egk => velomitra_egk_at(list, at, a, &mut out),
        Code::Held => velomitra_held_egk_at(list, at, a, b, &mut out),
        Code::Count => velomitra_count_at(list, at, a, &mut out),
        Code::Run => velomitra_run_at(list, at, a, b == 1, c, &mut out),
        Code::Bin | Code::Reuse => velomitra_bin_at(list, at, (a & 255) as u8, &mut out),
    }
    out
}

// The line of the reader of reuse runs, with as many flags as there are entries; empty where they are more than 128.
fn print_reuse(rt: &impl Print, record: &Record, list: &[u8]) -> io::Result<()> {
    let [_, _, at, limit, count, ..] = record.words;
    let mut flags = [false; 128];
    let mut out = [0; 3];
    let Some(flags) = flags.get_mut(..count as usize) else {
        return println!(rt);
    };
    velomitra_reuse_at(list, at as usize, limit, flags, &mut out);
    let [refusal, value, place] = out;
    match refusal {
        0 => println!(rt; "{refusal} {value} {place}:{}", Letters(flags)),
        _ => println!(rt; "{refusal} {value} {place}:"),
    }
}

// The line of a reader; empty where the record has fewer bins than it says.
fn print_get(rt: &impl Print, code: Code, record: &Record) -> io::Result<()> {
    let Some(list) = record.bins.get(..record.words[1] as usize) else {
        return println!(rt);
    };
    match code {
        Code::Reuse => print_reuse(rt, record, list),
        _ => {
            let [refusal, value, place] = get(code, record, list);
            println!(rt; "{refusal} {value} {place}")
        }
    }
}

// Lines for the records of standard input, at most 1,024 of them.
fn main(rt: HostRuntime) -> io::Result<()> {
    let mut input = [0u8; 65536];
    let n = read_full(&mut rt.stdin(), &mut input)?;
    let (records, _) = input[..n].as_chunks();
    for bytes in records {
        let record = Record::of(bytes);
        match Operation::from(record.words[0]) {
            Operation::Number(leaf) => println!(&rt; "{}", number(leaf, &record))?,
            Operation::Put(code) => print_put(&rt, code, &record)?,
            Operation::Get(code) => print_get(&rt, code, &record)?,
        }
    }
    Ok(())
}
