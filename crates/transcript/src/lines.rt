// rangewalk's output: one line for each answer.
ghost use Rattle.std.specs.Prelude.{◌≡◌, IfOk, Some, Ok, string_bytes};
ghost use Rattle.readers.specs.Outcome.{answer};
ghost use Rattle.aranges.specs.Tuples.{raw, converted, found};
ghost use Rattle.aranges.specs.Links.{header_is, entry_is};
ghost use Rattle.lookup.specs.Links.{looked_is};
ghost use Rattle.histories.specs.Links.{event_is};
ghost use Rattle.transcript.specs.Lines.{header_line, told_line, looked_line, line_of};

use aranges::{ArangeEntry, ArangeHeader};
use histories::Answer;
use lookup::Lookup;
use readers::{AddressReader, ReaderOffset};
use std::alloc::{AllocError, Global};

/// The line of an answer.
pub fn line<R: AddressReader>(heap: Global, answer: &Answer<R>) -> Result<String, AllocError>
    ensures { IfOk result
        (λ s. string_bytes s ≡ line_of (event_is R.means R.Offset.number answer.now)) }
{
    match answer {
        Answer::Header(Ok(Some(header))) => header_line(heap, header),
        Answer::Entries(Ok(())) => String::from_str(heap, "E\n"),
        Answer::Next(Ok(Some(entry))) => next_line(heap, entry),
        Answer::NextRaw(Ok(Some(entry))) => next_raw_line(heap, entry),
        Answer::Lookup(_, Ok(lookup)) => lookup_line(heap, lookup),
        Answer::Header(Ok(None)) | Answer::Next(Ok(None)) | Answer::NextRaw(Ok(None)) => {
            String::from_str(heap, "-\n")
        }
        Answer::Header(Err(error))
        | Answer::Entries(Err(error))
        | Answer::Next(Err(error))
        | Answer::NextRaw(Err(error))
        | Answer::Lookup(_, Err(error)) => format!(in heap; "! {error}\n"),
    }
}

fn header_line<R: AddressReader>(
    heap: Global,
    header: &ArangeHeader<R>,
) -> Result<String, AllocError>
    ensures { IfOk result
        (λ s. string_bytes s
        ≡ header_line (answer (Some (header_is R.means R.Offset.number header.now)))) }
{
    let place = header.offset().0;
    let encoding = header.encoding();
    let word_size = encoding.format.word_size();
    let version = encoding.version;
    let address_size = encoding.address_size;
    let info_offset = header.debug_info_offset().0.into_u64();
    format!(in heap; "H {place} {word_size} {version} {address_size} {info_offset}\n")
}

fn next_line(heap: Global, entry: &ArangeEntry) -> Result<String, AllocError>
    ensures { IfOk result (λ s. string_bytes s ≡ told_line converted (found (entry_is entry.now))) }
{
    let begin = entry.range().begin;
    let end = entry.range().end;
    let length = entry.length();
    format!(in heap; "N {begin} {end} {length}\n")
}

fn next_raw_line(heap: Global, entry: &ArangeEntry) -> Result<String, AllocError>
    ensures { IfOk result (λ s. string_bytes s ≡ told_line raw (found (entry_is entry.now))) }
{
    let begin = entry.address();
    let length = entry.length();
    format!(in heap; "R {begin} {length}\n")
}

fn lookup_line<O: ReaderOffset>(heap: Global, lookup: &Lookup<O>) -> Result<String, AllocError>
    ensures { IfOk result (λ s. string_bytes s ≡ looked_line (looked_is O.number (Ok lookup.now))) }
{
    let passed = lookup.passed;
    match lookup.found {
        Some(found) => {
            let begin = found.entry.range().begin;
            let end = found.entry.range().end;
            let info_offset = found.debug_info_offset.0.into_u64();
            let set = found.set.0;
            format!(in heap; "L {begin} {end} {info_offset} {set} {passed}\n")
        }
        None => format!(in heap; "- {passed}\n"),
    }
}
