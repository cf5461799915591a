// Document 01's figures as the code has them, one line each, held to the file `stdout`.
#![tactic(auto)]

use quant::{dequant_escape, quantize_escape, step, tolerance};
use scan::scan_pos;
use std::io;

// All of them, in the order of the file.
fn main(rt: HostRuntime) -> io::Result<()> {
    let rt = &rt;
    let place = scan_pos(4, 4);
    println!(rt; "size 4, scan 4, column: {}", place.col)?;
    println!(rt; "size 4, scan 4, row: {}", place.row)?;
    println!(rt;
        "QP 22, value 100, level: {}",
        quantize_escape(false, step(22), 255, 100)
    )?;
    for level in [-1, 300] {
        let value = dequant_escape(false, step(4), 255, level);
        println!(rt; "QP 4, 8 bits, level {level}: {value}")?;
    }
    for qp in [3, 4, 33, 34] {
        println!(rt; "tolerance at QP {qp}: {}", tolerance(false, step(qp)))?;
    }
    Ok(())
}
