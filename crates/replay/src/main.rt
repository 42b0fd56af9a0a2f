// replay: runs many inputs of rangewalk in one process. Each line of standard input is an input in hexadecimal digits; what
// rangewalk would write for it is written, and then a line with `=`.
#![tactic(auto)]

use hex_digits::decode;
use std::io;
use std::io::{BufRead, BufReader};
use transcript::transcript;

fn main(rt: HostRuntime) -> io::Result<()> {
    let heap = rt.alloc();
    for line in BufReader::new(heap, rt.stdin())?.lines(heap) {
        let line = line?;
        let input = decode(heap, line.as_bytes())?;
        let output = transcript(heap, &input)?;
        rt.print(output)?;
        rt.println("=")?;
    }
    Ok(())
}
