// Replays source 000's answers on whole blocks: makes the call of each record of standard input and prints a line for it, held to the file `stdout`. oracle/README.md has both forms.
#![tactic(auto)]

ghost use Rattle.std.specs.Prelude.{◌+◌, ◌≤◌, length};

use exports_analysis::{velomitra_analyze_palette, velomitra_analyze_with};
use exports_block::{velomitra_assign_indices, velomitra_palette_sse};
use exports_update::velomitra_update;
use reading::read_full;
use std::{fmt, io};

// The calls.
#[derive(Clone, Copy)]
enum Call {
    Update,
    Assign,
    Sse,
    Analyze,
    AnalyzeWith,
}

// A record: numbers of 16 bits.
#[derive(Drop)]
struct Record {
    numbers: [u16; 352],
}

// What the calls take beside a block: configuration, geometry, planes.
#[derive(Drop)]
struct Source {
    config: [i32; 8],
    geometry: [usize; 7],
    y: [u16; 64],
    cb: [u16; 64],
    cr: [u16; 64],
}

// A counter: keys, entries, and stamps after the generation.
#[derive(Drop)]
struct Counter {
    keys: [u64; 256],
    entry: [u16; 256],
    stamp: [u32; 257],
}

// Numbers, each with a space after it.
#[derive(Clone, Copy)]
struct Numbers<'a>(&'a [u16]);

// The parts of a block that records have.
#[derive(Clone, Copy)]
struct Parts<'a>(&'a [u16; 4432]);

impl From<u16> for Call {
    // By its number; each other number stands for the last.
    fn from(number: u16) -> Call {
        match number {
            1 => Call::Update,
            2 => Call::Assign,
            3 => Call::Sse,
            4 => Call::Analyze,
            _ => Call::AnalyzeWith,
        }
    }
}

impl fmt::Display for Numbers<'_> {
    fn fmt<W: fmt::Write>(&self, f: &mut fmt::Formatter<W>) -> fmt::Result {
        for number in self.0 {
            write!(f, "{number} ")?;
        }
        Ok(())
    }
}

impl fmt::Display for Parts<'_> {
    fn fmt<W: fmt::Write>(&self, f: &mut fmt::Formatter<W>) -> fmt::Result {
        let block = self.0;
        let head = Numbers(&block[..40]);
        let flags = Numbers(&block[208..216]);
        let indices = Numbers(&block[336..352]);
        let levels = Numbers(&block[1360..1408]);
        write!(f, "{head}{flags}{indices}{levels}")
    }
}

impl fmt::Display for Counter {
    // The generation, and place, key and entry of the slots that it has marked.
    fn fmt<W: fmt::Write>(&self, f: &mut fmt::Formatter<W>) -> fmt::Result {
        let generation = self.stamp[0];
        write!(f, "{generation} ")?;
        // Stays an index: the C interface has keys, entries and stamps as lists of their own, and the index is printed.
        for i in 0..256 {
            if self.stamp[1 + i] == generation {
                write!(f, "{i} {} {} ", self.keys[i], self.entry[i])?;
            }
        }
        Ok(())
    }
}

impl Record {
    // The record of 704 bytes.
    fn of(bytes: &[u8; 704]) -> Record {
        let mut numbers = [0; 352];
        let (pairs, _) = bytes.as_chunks();
        for (number, pair) in numbers.iter_mut().zip(pairs) {
            *number = u16::from_le_bytes(*pair);
        }
        Record { numbers }
    }

    // Head and eight entries, eight flags, sixteen cells; the rest is 0.
    fn block(&self) -> [u16; 4432] {
        let mut block = [0; 4432];
        lay(&mut block, 0, &self.numbers[240..280]);
        lay(&mut block, 208, &self.numbers[280..288]);
        lay(&mut block, 336, &self.numbers[288..304]);
        lay(&mut block, 1360, &self.numbers[304..]);
        block
    }

    // A plane, from a place on.
    fn plane(&self, from: usize) -> [u16; 64]
        requires { from ≤ 288 }
    {
        let mut plane = [0; 64];
        for (to, number) in plane.iter_mut().zip(&self.numbers[from..]) {
            *to = *number;
        }
        plane
    }

    // Configuration, geometry and planes.
    fn source(&self) -> Source {
        let mut config = [0; 8];
        let mut geometry = [0; 7];
        for (to, from) in config.iter_mut().zip(&self.numbers[2..10]) {
            *to = i32::from(from.cast_signed());
        }
        for (to, from) in geometry.iter_mut().zip(&self.numbers[10..17]) {
            *to = usize::from(*from);
        }
        Source {
            config,
            geometry,
            y: self.plane(24),
            cb: self.plane(88),
            cr: self.plane(152),
        }
    }

    // The predictor, of seven entries at most.
    fn predictor(&self) -> [u16; 22] {
        let mut predictor = [0; 22];
        predictor.copy_from_slice(&self.numbers[216..238]);
        predictor
    }

    // A counter with the generation and the stamp of slot 0.
    fn counter(&self) -> Counter {
        let mut stamp = [0; 257];
        stamp[0] = u32::from(self.numbers[17]) + (u32::from(self.numbers[18]) << 16);
        stamp[1] = u32::from(self.numbers[19]);
        Counter {
            keys: [0; 256],
            entry: [0; 256],
            stamp,
        }
    }

    // Refusal or 0, and the predictor after it.
    fn print_update(&self, rt: &impl Print) -> io::Result<()> {
        let mut predictor = self.predictor();
        let limit = usize::from(self.numbers[1]);
        let refusal = velomitra_update(&mut predictor, &self.block(), limit);
        println!(rt; "{refusal} {}", Numbers(&predictor))
    }

    // Refusal or 0, and the block after it.
    fn print_assign(&self, rt: &impl Print) -> io::Result<()> {
        let Source {
            config,
            geometry,
            y,
            cb,
            cr,
        } = self.source();
        let mut block = self.block();
        let transpose = self.numbers[1] == 1;
        let refusal = velomitra_assign_indices(
            &y, &cb, &cr, &config, &geometry, transpose, &mut block,
        );
        println!(rt; "{refusal} {}", Parts(&block))
    }

    // Refusal or 0, and the error figure.
    fn print_sse(&self, rt: &impl Print) -> io::Result<()> {
        let Source {
            config,
            geometry,
            y,
            cb,
            cr,
        } = self.source();
        let mut figure = [0];
        let refusal = velomitra_palette_sse(
            &y,
            &cb,
            &cr,
            &config,
            &geometry,
            &self.block(),
            &mut figure,
        );
        println!(rt; "{refusal} {} ", figure[0])
    }

    // Refusal or 0, the block after it, and the counter; at the tolerance lent, or else by the luma QP.
    fn print_analyze(&self, rt: &impl Print, tolerance: Option<u64>) -> io::Result<()> {
        let Source {
            config,
            geometry,
            y,
            cb,
            cr,
        } = self.source();
        let known = self.predictor();
        let mut counter = self.counter();
        let mut block = self.block();
        let Counter { keys, entry, stamp } = &mut counter;
        let refusal = match tolerance {
            None => velomitra_analyze_palette(
                &y, &cb, &cr, &config, &geometry, &known, keys, entry, stamp, &mut block,
            ),
            Some(tolerance) => velomitra_analyze_with(
                &y, &cb, &cr, &config, &geometry, &known, tolerance, keys, entry, stamp, &mut block,
            ),
        };
        println!(rt; "{refusal} {}{counter}", Parts(&block))
    }

    // The line of the record.
    fn print(&self, rt: &impl Print) -> io::Result<()> {
        match Call::from(self.numbers[0]) {
            Call::Update => self.print_update(rt),
            Call::Assign => self.print_assign(rt),
            Call::Sse => self.print_sse(rt),
            Call::Analyze => self.print_analyze(rt, None),
            Call::AnalyzeWith => self.print_analyze(rt, Some(u64::from(self.numbers[1]))),
        }
    }
}

// Numbers laid in a list from a place on.
fn lay(list: &mut [u16], at: usize, numbers: &[u16])
    requires { at + length numbers.now ≤ length list.old }
{
    list[at..at + numbers.len()].copy_from_slice(numbers);
}

// Lines for the records of standard input, at most 93 of them.
fn main(rt: HostRuntime) -> io::Result<()> {
    let mut input = [0u8; 65536];
    let n = read_full(&mut rt.stdin(), &mut input)?;
    let (records, _) = input[..n].as_chunks();
    for bytes in records {
        Record::of(bytes).print(&rt)?;
    }
    Ok(())
}
