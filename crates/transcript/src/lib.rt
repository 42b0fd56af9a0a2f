// What rangewalk does with its input: reads a section and commands, makes the calls, writes a line for each answer.
#![tactic(auto)]

mod head;
mod input;
mod lines;
mod run;

pub use lines::line;
pub use run::{MAX_INPUT, transcript};
