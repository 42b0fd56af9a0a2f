// A list of calls on one walk with their answers, and the law that every such history keeps.
#![tactic(auto)]

mod calls;

pub use calls::{Answer, Call, answer_calls};
