// Rows of unsigned LEB128 numbers.
ghost use Rattle.std.specs.Prelude.{◌≡◌, length};
ghost use Rattle.mallethill.specs.Told.{buffer_with};
ghost use Rattle.mallethill.specs.Numbers.{row, row_of, numbers_read};

use crate::fault::Fault;
use crate::section::open;
use leb128::read_uleb128;
use numbers::is_empty;
use readers::Reader;

/// How many numbers were read, and how many bytes they take.
#[repr(C)]
#[derive(Clone, Copy)]
pub struct NumbersRead {
    pub count: u64,
    pub taken: u64,
}

/// The unsigned LEB128 numbers at the front of some bytes, until the bytes or the room end. At a number that cannot be
/// read, the fault comes beside the numbers before it.
#[unsafe(no_mangle)]
pub extern "C" fn mallethill_uleb128(
    bytes: &[u8],
    numbers: &mut [u64],
    answer: &mut NumbersRead,
) -> Fault
    ensures fault { result ≡ (row_of bytes.now (length numbers.old)).ended }
    ensures answer { answer.new ≡ numbers_read (row_of bytes.now (length numbers.old)) }
    ensures numbers { numbers.new
        ≡ buffer_with numbers.old (row_of bytes.now (length numbers.old)).items }
{
    // LEB128 is read byte by byte, so that either order will do
    let (read, fault) = read_row(open(bytes, false), numbers);
    *answer = read;
    fault
}

// The same from any reader, whose ids count the bytes.
fn read_row<R: Reader>(mut reader: R, numbers: &mut [u64]) -> (NumbersRead, Fault)
    ensures fault { result.1 ≡ (row (length numbers.old) (R.means reader)).ended }
    ensures answer { result.0 ≡ numbers_read (row (length numbers.old) (R.means reader)) }
    ensures numbers { numbers.new
        ≡ buffer_with numbers.old (row (length numbers.old) (R.means reader)).items }
{
    let mut count = 0usize;
    while count < numbers.len() {
        let taken = reader.offset_id().0;
        // asked before the read, used only where it is refused: a test in each turn costs time
        let ends = is_empty(&reader);
        match read_uleb128(&mut reader) {
            Ok(number) => numbers[count] = number,
            Err(error) => {
                let count = count as u64;
                let fault = if ends {
                    Fault::NONE
                } else {
                    Fault::from(error)
                };
                return (NumbersRead { count, taken }, fault);
            }
        }
        count += 1;
    }
    let (count, taken) = (count as u64, reader.offset_id().0);
    (NumbersRead { count, taken }, Fault::NONE)
}
