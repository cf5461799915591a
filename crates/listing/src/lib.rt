// What the program `list` prints of a file: the listing of its block, or the refusal.
#![tactic(auto)]

ghost use Rattle.std.specs.Prelude.{true, ◌≡◌, ◌≤◌};
ghost use Rattle.base.specs.Laid.{Laid};
ghost use Rattle.layout.specs.Layout.{laid_out};
ghost use Rattle.readblock.specs.Read.{as_read};
ghost use Rattle.listing.specs.Listing.{listing_of};
ghost use Rattle.listing.specs.Printed.{reading_in, printed};

use layout::{held_at, laid_out, predictor_of, word_at};
use lines::{put_block, put_refused, put_runs};
use read::read_palette_cu;
use readblock::BlockRead;
use refusal::{Refusal, Refused};

// The reader's answer to a file that is laid out well.
fn reading(file: &[u8]) -> Result<BlockRead, Refused>
    requires { laid_out file.now ≡ true }
    ensures { as_read result ≡ reading_in file.now }
{
    let from = word_at(file, 32);
    read_palette_cu(
        &file[from..],
        word_at(file, 0),
        held_at(file, 4),
        held_at(file, 8),
        held_at(file, 12),
        word_at(file, 16) == 1,
        predictor_of(file),
        1024,
    )
}

// The lines of the reader's answer.
#[tactic(auto, unfolding(crate::specs::Printed::printed, readblock::specs::Read::as_read, readblock::specs::Read::refused_of))]
fn put_read(out: &mut [u8], answer: Result<BlockRead, Refused>) -> usize
    requires { (as_read answer).count ≤ 1024 }
    ensures laid { Laid out.old 0 (printed (as_read answer)) result out.new }
    ensures near { result ≤ 70800 }
{
    match answer {
        Ok(b) => {
            let cu = b.cu;
            let p = put_block(
                out,
                0,
                cu.size,
                cu.palette_size,
                cu.escape_present,
                cu.transpose,
                b.used,
            );
            put_runs(out, p, &b.runs[..b.count])
        }
        Err(Refused { refusal, place }) => put_refused(out, 0, u8::from(refusal), place),
    }
}

// Lays what is printed of a file from the start of a lent list, as far as it reaches, and answers how many bytes it has.
pub fn listing(file: &[u8], out: &mut [u8]) -> usize
    ensures laid { Laid out.old 0 (listing_of file.now) result out.new }
    ensures near { result ≤ 70800 }
{
    if laid_out(file) {
        let answer = reading(file);
        put_read(out, answer)
    } else {
        put_refused(out, 0, u8::from(Refusal::InputFile), 0)
    }
}
