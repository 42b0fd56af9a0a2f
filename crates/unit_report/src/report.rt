// The report of a file.
ghost use Rattle.std.specs.Prelude.{◌≡◌, map, zip, count_by, option_map};
ghost use Rattle.elf.specs.Results.{result_is};
ghost use Rattle.lookup.specs.Links.{found_is, looked_is};
ghost use Rattle.unit_report.specs.ImageLinks.{image_is};
ghost use Rattle.unit_report.specs.LineLinks.{Appends};
ghost use Rattle.unit_report.specs.ReportLinks.{Wrote};
ghost use Rattle.unit_report.specs.Reports.{head_lines, oddity_lines, found_in, is_found, status_code, answer_line, answer_lines, answer_section, answers_text, halting_oddity, report_in, report_of, report};
ghost use Rattle.unit_report.specs.SurveyLinks.{oddity_is, survey_is};

use crate::image::Image;
use crate::lines::{
    LookupResult, Then, write_answer, write_file, write_oddity, write_place, write_relocated,
    write_section, write_survey, write_totals,
};
use crate::refusal::Refusal;
use crate::survey::{Oddity, Survey, survey_section};
use lookup::{Found, lookup_addresses};
use std::alloc::{AllocError, Global};

/// What the program's end says.
#[derive(Clone, Copy, PartialEq, Eq, Debug)]
pub enum Status {
    /// The report is complete.
    Complete,
    /// The report halted at an oddity, or there is no report.
    Failed,
    /// The command line, or an address, can't be read.
    Misused,
}

impl Status {
    /// The number that the program ends with.
    pub fn code(self) -> u8
        ensures { result ≡ status_code self }
    {
        match self {
            Status::Complete => 0,
            Status::Failed => 1,
            Status::Misused => 2,
        }
    }
}

/// Adds the report of a file at some addresses; a strict one halts at the first oddity.
pub fn write_report(
    heap: Global,
    bytes: &[u8],
    addresses: &[u64],
    strict: bool,
    out: &mut String,
) -> Result<Status, Refusal>
    ensures { Wrote report result out.old out.new
        (report_of bytes.now strict addresses.now) }
{
    let image = Image::open(heap, bytes)?;
    write_image(heap, &image, addresses, strict, out)
}

// the report of a file that was opened
fn write_image(
    heap: Global,
    image: &Image,
    addresses: &[u64],
    strict: bool,
    out: &mut String,
) -> Result<Status, Refusal>
    ensures { Wrote report result out.old out.new
        (report_in strict addresses.now (image_is image.now)) }
{
    let survey = survey_section(heap, &image.aranges())?;
    write_head(image, out)?;
    match halting_oddity(&survey, strict) {
        Some(oddity) => {
            write_oddity(out, &oddity, Then::Halts)?;
            Ok(Status::Failed)
        }
        None => {
            write_oddities(&survey, out)?;
            write_survey(out, &survey)?;
            write_answers(heap, image, addresses, out)?;
            Ok(Status::Complete)
        }
    }
}

// the oddity at which the report halts
#[tactic(auto, using(crate::proofs::Answered::first_map))]
fn halting_oddity(survey: &Survey, strict: bool) -> Option<Oddity>
    ensures { option_map oddity_is result ≡ halting_oddity strict (survey_is survey.now) }
{
    if strict {
        survey.oddities.first().copied()
    } else {
        None
    }
}

// what the file and the section are
fn write_head(image: &Image, out: &mut String) -> Result<(), AllocError>
    ensures { Appends result out.old out.new (head_lines (image_is image.now)) }
{
    write_file(out, &image.file)?;
    write_section(out, &image.section)?;
    write_relocated(out, image.file.kind(), image.places())?;
    Ok(())
}

// a line for each oddity
fn write_oddities(survey: &Survey, out: &mut String) -> Result<(), AllocError>
    ensures { Appends result out.old out.new (oddity_lines (survey_is survey.now).oddities) }
{
    for oddity in &survey.oddities {
        write_oddity(out, oddity, Then::GoesOn)?;
    }
    Ok(())
}

// a line for each address, and the totals
fn write_answers(
    heap: Global,
    image: &Image,
    addresses: &[u64],
    out: &mut String,
) -> Result<(), Refusal>
    ensures { Wrote (λ _ t. t) result out.old out.new
        (answers_text (image_is image.now) addresses.now) }
{
    let answers = lookup_addresses(heap, &image.aranges(), addresses)?;
    write_lines(image, addresses, &answers, out)?;
    write_totals(out, addresses.len(), count_found(&answers))?;
    Ok(())
}

// a line for each address and its answer
fn write_lines(
    image: &Image,
    addresses: &[u64],
    answers: &[LookupResult],
    out: &mut String,
) -> Result<(), Refusal>
    ensures { Wrote (λ _ t. t) result out.old out.new
        (answer_lines (image_is image.now)
        (zip addresses.now (map (looked_is (λ x. x)) answers.now))) }
{
    for (address, answer) in addresses.iter().zip(answers) {
        write_line(image, *address, answer, out)?;
    }
    Ok(())
}

// the line of an address
fn write_line(
    image: &Image,
    address: u64,
    answer: &LookupResult,
    out: &mut String,
) -> Result<(), Refusal>
    ensures { Wrote (λ _ t. t) result out.old out.new
        (answer_line (image_is image.now) address (looked_is (λ x. x) answer.now)) }
{
    let name = answer_section(image, answer)?;
    write_answer(out, address, answer)?;
    write_place(out, name)?;
    out.push_str("\n")?;
    Ok(())
}

// the name of the section of the range that an answer tells
fn answer_section<'a>(image: &Image<'a>, answer: &LookupResult) -> Result<Option<&'a [u8]>, Refusal>
    ensures { result_is (option_map (λ x. x.now)) result
        ≡ answer_section (image_is image.now) (looked_is (λ x. x) answer.now) }
{
    match found_in(answer) {
        Some(found) => image.range_section(&found),
        None => Ok(None),
    }
}

// how many addresses a unit holds
fn count_found(answers: &[LookupResult]) -> usize
    ensures { result ≡ count_by is_found (map (looked_is (λ x. x)) answers.now) }
{
    answers
        .iter()
        .filter(|answer| found_in(answer).is_some())
        .count()
}

// the range that an answer tells
fn found_in(answer: &LookupResult) -> Option<Found<usize>>
    ensures { option_map (found_is (λ x. x)) result ≡ found_in (looked_is (λ x. x) answer.now) }
{
    match answer {
        Ok(lookup) => lookup.found,
        Err(_) => None,
    }
}
