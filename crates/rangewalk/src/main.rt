// rangewalk: answers the commands on standard input over the section that stands before them.
#![tactic(auto)]

use std::io;
use std::io::Read;
use transcript::{MAX_INPUT, transcript};

fn main(rt: HostRuntime) -> io::Result<()> {
    let heap = rt.alloc();
    let mut input = Vec::new(heap);
    rt.stdin().take(MAX_INPUT).read_to_end(&mut input)?;
    let output = transcript(heap, &input)?;
    rt.print(output)
}
