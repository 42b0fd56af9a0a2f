// The byte order of a section.

/// Byte order that is chosen as the program runs.
#[derive(Clone, Copy, PartialEq, Eq, Debug)]
pub enum RunTimeEndian {
    /// The lowest byte of a number first.
    Little,
    /// The highest byte of a number first.
    Big,
}
