// Prints the listing of the palette file on standard input: all that is said of it is proved in crate listing.
#![tactic(auto)]

use listing::listing;
use reading::read_full;
use std::io;

// Reads, and writes. The room for a file has one byte more, by which a longer one is known; that for what is printed holds every listing.
fn main(rt: HostRuntime) -> io::Result<()> {
    let mut file = [0; 65537];
    let mut out = [0; 70800];
    let n = read_full(&mut rt.stdin(), &mut file)?;
    let m = listing(&file[..n], &mut out);
    rt.write_all(&out[..m])
}
