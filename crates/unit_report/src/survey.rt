// A survey of a section: how many sets and ranges it has, and what is odd in it.
ghost use Rattle.std.specs.Prelude.{◌≡◌, IfOk};
ghost use Rattle.std.specs.Bool.{OnFalse};
ghost use Rattle.aranges.specs.Answers.{items_in};
ghost use Rattle.aranges.specs.Links.{is_break};
ghost use Rattle.unit_report.specs.Surveys.{survey_of, spoilt_tuples};
ghost use Rattle.unit_report.specs.SurveyLinks.{oddity_is, survey_is, with_oddity};

use aranges::{Answer, ArangeHeader, DebugAranges, Visitor};
use readers::{AddressReader, DebugArangesOffset, Error, Reader, ReaderOffset};
use std::alloc::{AllocError, Global};
use std::ops::ControlFlow;

/// What can't be read of a section; a set is told by its place.
#[derive(Clone, Copy, PartialEq, Eq, Debug)]
pub enum Oddity {
    /// A tuple of a set, counted from 0, which is passed.
    Tuple { set: u64, tuple: u64, fault: Error },
    /// The header of a set, which ends the section.
    Header { set: u64, fault: Error },
}

impl Oddity {
    ghost use Rattle.unit_report.specs.Surveys.{is_tuple};

    // whether it is a tuple, and not a header
    fn is_tuple(&self) -> bool
        ensures { result ≡ is_tuple (oddity_is self.now) }
    {
        match self {
            Oddity::Tuple { .. } => true,
            Oddity::Header { .. } => false,
        }
    }
}

/// What the sets of a section come to.
#[derive(Drop)]
pub struct Survey {
    pub sets: u64,
    pub ranges: u64,
    /// In the order of their places.
    pub oddities: Vec<Oddity>,
}

/// Goes over all sets of a section, up to the first whose header can't be read.
pub fn survey_section<R: AddressReader>(
    heap: Global,
    section: &DebugAranges<R>,
) -> Result<Survey, AllocError>
    ensures { IfOk result (λ s. survey_is s
        ≡ survey_of (items_in R.Offset.limit (R.means section.now.section))) }
{
    // each set and each range takes a byte, so that their numbers fit
    let _total = section.len().into_u64();
    let mut survey = Survey {
        sets: 0,
        ranges: 0,
        oddities: Vec::new(heap),
    };
    match section.visit(&mut survey) {
        ControlFlow::Continue(()) => Ok(survey),
        ControlFlow::Break(()) => Err(AllocError),
    }
}

impl Survey {
    /// How many tuples are odd.
    pub fn spoilt_tuples(&self) -> usize
        ensures { result ≡ spoilt_tuples (survey_is self.now).oddities }
    {
        self.oddities
            .iter()
            .filter(|oddity| oddity.is_tuple())
            .count()
    }

    // stops where memory is short
    fn note(&mut self, oddity: Oddity) -> ControlFlow<()>
        ensures { OnFalse (is_break result)
            (survey_is self.new ≡ with_oddity (survey_is self.old) (oddity_is oddity)) }
    {
        match self.oddities.push(oddity) {
            Ok(()) => ControlFlow::Continue(()),
            Err(_) => ControlFlow::Break(()),
        }
    }
}

impl<R: AddressReader> Visitor<R> for Survey {
    ghost use Rattle.unit_report.specs.SurveyLinks.{Notes};

    ghost visits = { Notes };

    fn enter(&mut self, _header: &ArangeHeader<R>) -> ControlFlow<()> {
        self.sets = self.sets.saturating_add(1);
        ControlFlow::Continue(())
    }

    fn answer(&mut self, header: &ArangeHeader<R>, answer: Answer) -> ControlFlow<()> {
        match answer.outcome {
            Ok(_) => {
                self.ranges = self.ranges.saturating_add(1);
                ControlFlow::Continue(())
            }
            Err(fault) => self.note(Oddity::Tuple {
                set: header.offset().0,
                tuple: answer.number,
                fault,
            }),
        }
    }

    fn spoilt(&mut self, offset: DebugArangesOffset<u64>, fault: Error) -> ControlFlow<()> {
        self.note(Oddity::Header {
            set: offset.0,
            fault,
        })
    }
}
