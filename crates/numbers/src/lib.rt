// Reads of numbers, written once for every reader, and addresses of a size.
#![tactic(auto)]

mod address;
mod read;

pub use address::{add_sized, min_tombstone, ones_sized};
pub use read::{
    is_empty, read_address_size, read_i8, read_i16, read_i32, read_i64, read_initial_length,
    read_length, read_plain_address, read_plain_sized_offset, read_u8, read_u16, read_u32,
    read_u64, read_uint, read_word,
};
