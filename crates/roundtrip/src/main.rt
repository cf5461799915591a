// Takes blocks of a small land-cover map from planes to bins and back, with predictors carried from block to block on both sides, and compares every cell. Prints a line for each block, and the sums; held to the file `stdout`.
#![tactic(auto)]

ghost use Rattle.std.specs.Prelude.{◌≤◌};

use compare::{differing, differing_cells, differing_samples};
use exports_analysis::velomitra_analyze_palette;
use exports_block::velomitra_assign_indices;
use exports_plan::velomitra_plan_runs;
use exports_read::velomitra_read_palette_cu;
use exports_recon::velomitra_reconstruct;
use exports_update::velomitra_update;
use exports_write::velomitra_write_palette_cu;
use landcover::{Series, Square, config, depth, geometry, plane, side, size_of, spot};
use std::{fmt, io};

// A call's refusal, by its number.
#[derive(Clone, Copy)]
struct Refused(u8);

// What a call's number says.
fn answer(number: u8) -> Result<(), Refused> {
    match number {
        0 => Ok(()),
        _ => Err(Refused(number)),
    }
}

// Runs and bins that a block took.
#[derive(Clone, Copy, Default)]
struct Sent {
    runs: usize,
    bins: usize,
}

// What differs: cells, what is beside them, predictors, samples of the map.
#[derive(Clone, Copy)]
struct Found {
    cells: u64,
    others: u64,
    predictors: u64,
    samples: u64,
}

// What becomes of a block.
#[derive(Clone, Copy)]
struct Carried {
    entries: u16,
    sent: Sent,
    found: Found,
}

// What is summed over the blocks.
#[derive(Clone, Copy, Default)]
struct Sums {
    blocks: u64,
    refused: u64,
    cells: u64,
    differing: u64,
    others: u64,
    samples: u64,
}

// The planes of a map.
#[derive(Drop)]
struct Map {
    y: [u16; 1920],
    cb: [u16; 1920],
    cr: [u16; 1920],
}

// A block of a series, as it is or transposed.
#[derive(Clone, Copy)]
struct Block {
    series: Series,
    at: Square,
    turned: bool,
}

// The predictors of both sides.
#[derive(Drop)]
struct Predictors {
    enc: [u16; 385],
    dec: [u16; 385],
}

impl fmt::Display for Refused {
    fn fmt<W: fmt::Write>(&self, f: &mut fmt::Formatter<W>) -> fmt::Result {
        write!(f, "refused {}", self.0)
    }
}

impl fmt::Display for Block {
    fn fmt<W: fmt::Write>(&self, f: &mut fmt::Formatter<W>) -> fmt::Result {
        let Block { series, at, turned } = *self;
        let rate = if series.lossless { "lossless" } else { "qp 22" };
        write!(
            f,
            "format {} depth {} {rate}",
            series.format,
            depth(series.deep)
        )?;
        write!(f, " block {} at {} {}", at.size, at.column, at.row)?;
        f.write_str(if turned { " turned" } else { "" })
    }
}

impl fmt::Display for Carried {
    fn fmt<W: fmt::Write>(&self, f: &mut fmt::Formatter<W>) -> fmt::Result {
        let Carried {
            entries,
            sent,
            found,
        } = *self;
        write!(f, "entries {entries} runs {} bins {}", sent.runs, sent.bins)?;
        write!(
            f,
            "; differing cells {} others {}",
            found.cells, found.others
        )?;
        write!(
            f,
            " predictors {} samples {}",
            found.predictors, found.samples
        )
    }
}

impl fmt::Display for Sums {
    fn fmt<W: fmt::Write>(&self, f: &mut fmt::Formatter<W>) -> fmt::Result {
        write!(
            f,
            "blocks {} refused {} cells {}",
            self.blocks, self.refused, self.cells
        )?;
        write!(
            f,
            "; differing cells {} others and predictors {}",
            self.differing, self.others
        )?;
        write!(f, " samples of lossless blocks {}", self.samples)
    }
}

impl Map {
    // The map in the format and depth of a series.
    fn of(series: Series) -> Map {
        let half = series.format == 1;
        Map {
            y: plane(false, 37, series.deep),
            cb: plane(half, 71, series.deep),
            cr: plane(half, 113, series.deep),
        }
    }

    // A block of the map's samples, with its cells assigned; or a refusal.
    fn make(&self, block: Block, known: &[u16], cu: &mut [u16]) -> Result<(), Refused> {
        let Map { y, cb, cr } = self;
        let mut keys = [0; 256];
        let mut entry = [0; 256];
        let mut stamp = [0; 257];
        let c = config(block.series);
        let g = geometry(block.series.format, block.at);
        answer(velomitra_analyze_palette(
            y, cb, cr, &c, &g, known, &mut keys, &mut entry, &mut stamp, cu,
        ))?;
        answer(velomitra_assign_indices(y, cb, cr, &c, &g, block.turned, cu))
    }

    // Samples that differ from the map, where a block is laid on planes that had none of its samples.
    fn samples(&self, block: Block, back: &[u16]) -> u64 {
        let Block { series, at, .. } = block;
        let mut luma = [65535; 1920];
        let mut first = [65535; 1920];
        let mut second = [65535; 1920];
        let c = config(series);
        let g = geometry(series.format, at);
        velomitra_reconstruct(&mut luma, &mut first, &mut second, 48, g[2], &c, &g, back);
        differing_samples(&self.y, &luma, 48, 40, at.column, at.row, at.size) as u64
            + chroma(&self.cb, &first, series.format, at)
            + chroma(&self.cr, &second, series.format, at)
    }

    // A block to bins and back: what it took, and what differs. The bins that follow it are of no class, so that a reader who looked at one would refuse.
    fn carry(&self, block: Block, known: &mut Predictors) -> Result<Carried, Refused> {
        let mut cu = [0; 4432];
        self.make(block, &known.enc, &mut cu)?;
        let mut back = [0; 4432];
        let mut bins = [255; 32768];
        let size = size_of(block.at);
        let sent = send(&cu, &mut bins);
        let got = receive(&bins, size, block.series, &known.dec, &mut back);
        let cells = differing_cells(&cu, &back, size, block.series.format, block.turned) as u64;
        let others = others(&cu, &back, sent, got);
        Ok(Carried {
            entries: cu[5],
            sent: sent.unwrap_or_default(),
            found: Found {
                cells,
                others,
                predictors: known.update(&cu, &back),
                samples: self.samples(block, &back),
            },
        })
    }
}

impl Predictors {
    // Both predictors after a block, and what differs in them, refusals too.
    fn update(&mut self, cu: &[u16], back: &[u16]) -> u64 {
        let enc = answer(velomitra_update(&mut self.enc, cu, 128));
        let dec = answer(velomitra_update(&mut self.dec, back, 128));
        differing(&self.enc, &self.dec, 0, 385) as u64
            + u64::from(enc.is_err())
            + u64::from(dec.is_err())
    }
}

impl Sums {
    // A block more.
    fn count(&mut self, block: Block, carried: Result<Carried, Refused>) {
        let Ok(Carried { found, .. }) = carried else {
            self.refused = self.refused.saturating_add(1);
            return;
        };
        let size = size_of(block.at);
        self.blocks = self.blocks.saturating_add(1);
        self.cells = self.cells.saturating_add((size * size) as u64);
        self.differing = self.differing.saturating_add(found.cells);
        self.others = self
            .others
            .saturating_add(found.others)
            .saturating_add(found.predictors);
        if block.series.lossless {
            self.samples = self.samples.saturating_add(found.samples);
        }
    }
}

// The bins of a block, by its planned runs.
fn send(cu: &[u16], bins: &mut [u8]) -> Result<Sent, Refused> {
    let rates = [1.0f32; 18];
    let mut runs = [0; 4096];
    let mut count = [0];
    let mut total = [0.0f32];
    let mut used = [0];
    answer(velomitra_plan_runs(cu, &rates, &mut runs, &mut count, &mut total))?;
    answer(velomitra_write_palette_cu(cu, &runs, count[0], bins, &mut used))?;
    Ok(Sent {
        runs: count[0],
        bins: used[0],
    })
}

// The block at the start of a list of bins.
fn receive(
    bins: &[u8],
    size: usize,
    series: Series,
    known: &[u16],
    cu: &mut [u16],
) -> Result<Sent, Refused> {
    let Series {
        format,
        deep,
        lossless,
    } = series;
    let mut runs = [0; 4096];
    let mut count = [0];
    let mut used = [0];
    let mut place = [0];
    let d = depth(deep);
    answer(velomitra_read_palette_cu(
        bins, size, format, d, d, lossless, known, cu, &mut runs, &mut count, &mut used, &mut place,
    ))?;
    Ok(Sent {
        runs: count[0],
        bins: used[0],
    })
}

// What differs beside the cells, in a block read from one that was written: head, palette and flags; runs, bins, refusals.
fn others(
    cu: &[u16],
    back: &[u16],
    sent: Result<Sent, Refused>,
    got: Result<Sent, Refused>,
) -> u64 {
    let written = sent.unwrap_or_default();
    let read = got.unwrap_or_default();
    // With no runs there is no transpose flag.
    let head = if written.runs == 0 { 9 } else { 10 };
    differing(cu, back, 0, head) as u64
        + differing(cu, back, 16, 320) as u64
        + u64::from(written.runs != read.runs)
        + u64::from(written.bins != read.bins)
        + u64::from(sent.is_err())
        + u64::from(got.is_err())
}

// Samples of a chroma plane that differ within a block.
fn chroma(a: &[u16], b: &[u16], format: u8, at: Square) -> u64
    ensures { result ≤ 4294967296 }
{
    let [w, h, x, y, size] = [48, 40, at.column, at.row, at.size].map(|luma| side(format, luma));
    differing_samples(a, b, w, h, x, y, size) as u64
}

// The lines of a series: each block as it is and transposed, with empty predictors on both sides at first.
fn print_series(rt: &impl Print, series: Series, sums: &mut Sums) -> io::Result<()> {
    let map = Map::of(series);
    let mut known = Predictors {
        enc: [0; 385],
        dec: [0; 385],
    };
    for k in 0..12 {
        for turned in [false, true] {
            let block = Block {
                series,
                at: spot(k),
                turned,
            };
            let carried = map.carry(block, &mut known);
            match carried {
                Ok(carried) => println!(rt; "{block}: {carried}")?,
                Err(refused) => println!(rt; "{block}: {refused}")?,
            }
            sums.count(block, carried);
        }
    }
    Ok(())
}

// The lines of every format, at 8 and 10 bits, lossless and not; and the sums.
fn main(rt: HostRuntime) -> io::Result<()> {
    let mut sums = Sums::default();
    for format in [0, 1, 3] {
        for deep in [false, true] {
            for lossless in [true, false] {
                print_series(
                    &rt,
                    Series {
                        format,
                        deep,
                        lossless,
                    },
                    &mut sums,
                )?;
            }
        }
    }
    println!(&rt; "{sums}")
}
