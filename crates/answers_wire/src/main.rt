// Replays reading and writing of whole blocks: reads the bins of each record of standard input, changes a number of the block and one of its runs, writes it, and prints a line of both, held to the file `stdout`. oracle/README.md has both forms.
#![tactic(auto)]

ghost use Rattle.std.specs.Prelude.{◌≤◌, ◌<◌};

use exports_read::velomitra_read_palette_cu;
use exports_write::velomitra_write_palette_cu;
use reading::read_full;
use std::fmt::Write;
use std::{fmt, io};

// A record's bytes.
#[derive(Clone, Copy)]
struct Record([u8; 384]);

// A block's numbers and those of its runs.
#[derive(Drop)]
struct Block {
    numbers: [u16; 4432],
    runs: [u32; 1024],
}

// Numbers, each with a space after it.
#[derive(Clone, Copy)]
struct Numbers<'a, T>(&'a [T]);

// Bins, as letters from `a` on.
#[derive(Clone, Copy)]
struct Letters<'a>(&'a [u8]);

impl<T: fmt::Display> fmt::Display for Numbers<'_, T> {
    fn fmt<W: fmt::Write>(&self, f: &mut fmt::Formatter<W>) -> fmt::Result {
        for number in self.0 {
            write!(f, "{number} ")?;
        }
        Ok(())
    }
}

impl fmt::Display for Letters<'_> {
    fn fmt<W: fmt::Write>(&self, f: &mut fmt::Formatter<W>) -> fmt::Result {
        for bin in self.0 {
            f.write_char(match bin {
                0..=25 => char::from(b'a' + bin),
                _ => '?',
            })?;
        }
        Ok(())
    }
}

impl fmt::Display for Block {
    // The parts that a line has: head and four entries, four flags, sixteen cells, sixteen runs.
    fn fmt<W: fmt::Write>(&self, f: &mut fmt::Formatter<W>) -> fmt::Result {
        let head = Numbers(&self.numbers[..28]);
        let flags = Numbers(&self.numbers[208..212]);
        let indices = Numbers(&self.numbers[336..352]);
        let levels = Numbers(&self.numbers[1360..1408]);
        let runs = Numbers(&self.runs[..64]);
        write!(f, "{head}{flags}{indices}{levels}{runs}")
    }
}

impl Record {
    // A byte as a number.
    fn byte(&self, at: usize) -> usize
        requires { at < 384 }
        ensures { result ≤ 255 }
    {
        usize::from(self.0[at])
    }

    // Two bytes as a number, the low one first.
    fn pair(&self, at: usize) -> u16
        requires { at < 383 }
    {
        u16::from_le_bytes([self.0[at], self.0[at + 1]])
    }

    // The predictor: its size and seven entries.
    fn predictor(&self) -> [u16; 22] {
        let mut predictor = [0; 22];
        for (i, number) in predictor.iter_mut().enumerate() {
            *number = self.pair(16 + 2 * i);
        }
        predictor
    }

    // What is read: refusal or 0, its place, the number of runs and of bins used; and the block.
    fn print_read(&self, rt: &impl Print, block: &mut Block) -> io::Result<()> {
        let mut count = [3];
        let mut used = [3];
        let mut place = [3];
        let runs = &mut block.runs[..];
        let refusal = velomitra_read_palette_cu(
            &self.0[64..64 + self.byte(0)],
            self.byte(1),
            self.0[2],
            self.0[3],
            self.0[4],
            self.0[5] == 1,
            &self.predictor(),
            &mut block.numbers,
            &mut runs[..4 * self.byte(6)],
            &mut count,
            &mut used,
            &mut place,
        );
        print!(rt; "{refusal} {} {} {} {block}", place[0], count[0], used[0])
    }

    // The block and the runs with the numbers that the record changes.
    fn change(&self, block: &mut Block) {
        if let Some(number) = block.numbers.get_mut(usize::from(self.pair(9))) {
            *number = self.pair(11);
        }
        block.runs[self.byte(13)] = u32::from(self.0[14]);
    }

    // What is written: refusal or 0, the number of bins, the list.
    fn print_write(&self, rt: &impl Print, block: &Block) -> io::Result<()> {
        let mut bins = [25; 255];
        let mut used = [3];
        let bins = &mut bins[..self.byte(15)];
        let count = usize::from(self.pair(7));
        let refusal = velomitra_write_palette_cu(
            &block.numbers,
            &block.runs,
            count,
            bins,
            &mut used,
        );
        println!(rt; "{refusal} {} {}", used[0], Letters(bins))
    }

    // The line of the record: its name, what is read, and what is written after a change.
    fn print(&self, rt: &impl Print) -> io::Result<()> {
        let mut block = Block {
            numbers: [3; 4432],
            runs: [3; 1024],
        };
        rt.write_all(&self.0[320..])?;
        self.print_read(rt, &mut block)?;
        self.change(&mut block);
        self.print_write(rt, &block)
    }
}

// Lines for the records of standard input, at most 170 of them.
fn main(rt: HostRuntime) -> io::Result<()> {
    let mut input = [0u8; 65536];
    let n = read_full(&mut rt.stdin(), &mut input)?;
    let (records, _) = input[..n].as_chunks();
    for bytes in records {
        Record(*bytes).print(&rt)?;
    }
    Ok(())
}
