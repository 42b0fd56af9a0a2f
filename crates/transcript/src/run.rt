// From rangewalk's input to its output.
ghost use Rattle.std.specs.Prelude.{◌^◌, ◌<◌, map, length, IfOk, string_bytes, OnOk};
ghost use Rattle.histories.specs.Links.{call_is};
ghost use Rattle.transcript.specs.Input.{heading_is};
ghost use Rattle.transcript.specs.Transcript.{limit_of, section_of, Walked, Transcript, Adds, Added, WroteTranscript};

use crate::head::Head;
use crate::input::{ReaderKind, Stop, read_commands, read_head};
use crate::lines::line;
use histories::{Call, answer_calls};
use readers::{AddressReader, Reader, RunTimeEndian};
use section_reader::EndianSlice;
use std::alloc::{AllocError, Global};

/// As much of an input as is read.
pub const MAX_INPUT: u64 = 65_536;

/// What rangewalk writes for an input: the lines so far and `?` where the input is malformed.
pub fn transcript(heap: Global, input: &[u8]) -> Result<String, AllocError>
    ensures { IfOk result (λ s. Transcript input.now (string_bytes s)) }
{
    let mut out = String::new(heap);
    match write_lines(heap, input, &mut out) {
        Ok(()) => {}
        Err(Stop::Malformed) => out.push_str("?\n")?,
        Err(Stop::NoMemory) => return Err(AllocError),
    }
    Ok(out)
}

fn write_lines(heap: Global, input: &[u8], out: &mut String) -> Result<(), Stop>
    ensures { WroteTranscript result input.now (string_bytes out.old) (string_bytes out.new) }
{
    let mut input = EndianSlice::new(input, 0, RunTimeEndian::Little)?;
    let head = read_head(heap, &mut input)?;
    let mut calls = Vec::new(heap);
    // the calls in front of a bad command are answered too
    let end = read_commands(input, &mut calls);
    write_answers(heap, &head, &calls, out)?;
    end
}

fn write_answers(heap: Global, head: &Head, calls: &[Call], out: &mut String) -> Result<(), Stop>
    ensures { Added result (string_bytes out.old) (string_bytes out.new)
        (Walked (limit_of head.now.kind) (section_of (heading_is head.now))
        (map call_is calls.now)) }
{
    match head.kind {
        ReaderKind::EndianSlice => walk_section(heap, head.open::<usize>()?, calls, out)?,
        ReaderKind::EndianReader => walk_section(heap, head.open::<u32>()?, calls, out)?,
        ReaderKind::RelocatedSlice => {
            walk_section(heap, head.relocated(head.open::<usize>()?), calls, out)?
        }
        ReaderKind::RelocatedReader => {
            walk_section(heap, head.relocated(head.open::<u32>()?), calls, out)?
        }
    }
    Ok(())
}

fn walk_section<R: AddressReader>(
    heap: Global,
    section: R,
    calls: &[Call],
    out: &mut String,
) -> Result<(), AllocError>
    ensures { OnOk result
        (Adds (string_bytes out.old) (string_bytes out.new)
        (Walked R.Offset.limit (R.means section) (map call_is calls.now))) }
{
    let answers = answer_calls(heap, section, calls)?;
    for answer in &answers {
        let line = line(heap, answer)?;
        out.push_str(line.as_str())?;
    }
    Ok(())
}
