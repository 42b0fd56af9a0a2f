// What each call returns: the fault, or that there is none.
ghost use Rattle.std.specs.Prelude.{◌≡◌};
ghost use Rattle.readers.specs.Links.{fault_is, outcome_is};
ghost use Rattle.mallethill.specs.Told.{c_fault, returned_fault, answer_or};

use readers::Error;

/// A fault's payload and number, which are 0 where there is no fault.
#[repr(C)]
#[derive(Clone, Copy)]
pub struct Fault {
    pub payload: u64,
    pub number: u8,
}

impl Fault {
    pub const NONE: Fault = Fault {
        payload: 0,
        number: 0,
    };
}

// The number of a fault, as docs/FAULTS.md lists them.
fn number(error: Error) -> u8
    ensures { result ≡ (fault_is error).number }
{
    match error {
        Error::UnexpectedEof(_) => 1,
        Error::UnknownReservedLength(_) => 2,
        Error::UnknownVersion(_) => 3,
        Error::UnsupportedAddressSize(_) => 4,
        Error::UnsupportedSegmentSize(_) => 5,
        Error::UnsupportedOffset => 6,
        Error::UnsupportedOffsetSize(_) => 7,
        Error::BadUnsignedLeb128 => 8,
        Error::BadSignedLeb128 => 9,
        Error::AddressOverflow => 10,
        Error::SectionTooLong => 11,
        Error::NothingOpen => 12,
        Error::RelocationRefused(_) => 13,
        Error::BadLength(_) => 14,
    }
}

impl From<Error> for Fault {
    fn from(error: Error) -> Fault
        ensures { result ≡ c_fault (fault_is error) }
    {
        Fault {
            payload: error.payload(),
            number: number(error),
        }
    }
}

/// Puts an answer into its place, or leaves the place as it was and tells the fault.
pub fn settle<T: Copy>(outcome: Result<T, Error>, place: &mut T) -> Fault
    ensures fault { result ≡ returned_fault (outcome_is (λ x. x) outcome) }
    ensures place { place.new ≡ answer_or place.old (outcome_is (λ x. x) outcome) }
{
    match outcome {
        Ok(answer) => {
            *place = answer;
            Fault::NONE
        }
        Err(error) => Fault::from(error),
    }
}
