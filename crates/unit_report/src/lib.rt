// The report of addr2unit: from the bytes of an ELF file and addresses to the units that hold them.
#![tactic(auto)]

mod address;
mod arguments;
mod fields;
mod image;
mod lines;
mod refusal;
mod report;
mod survey;

pub use address::{AddressError, parse_address};
pub use arguments::{Command, HELP, Request, UsageError, VERSION, parse_line};
pub use image::{Image, Relocated};
pub use refusal::Refusal;
pub use report::{Status, write_report};
pub use survey::{Oddity, Survey, survey_section};
