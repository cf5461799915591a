// Bytes of a reader, as many as a room takes.
#![tactic(auto)]

ghost use Rattle.std.specs.Prelude.{◌≤◌, length, IfOk};

use std::io;
use std::io::Read;

// Reads until the room is full or the input ends. The answer is how many bytes came.
pub fn read_full(input: &mut impl Read, room: &mut [u8]) -> io::Result<usize>
    ensures { IfOk result (λ n. n ≤ length room.new) }
{
    let mut at = 0;
    // Stays a loop over `read`: std's `read_exact` does not say how many bytes came before the input's end, and `read_to_end` takes the heap.
    while at < room.len() {
        match input.read(&mut room[at..])? {
            0 => break,
            n => at += n,
        }
    }
    Ok(at)
}
