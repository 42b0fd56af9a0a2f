// A range of addresses.

/// The addresses from `begin` on, up to `end` and without it.
#[derive(Clone, Copy)]
pub struct Range {
    pub begin: u64,
    pub end: u64,
}
