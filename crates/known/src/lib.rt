// Thirteen known values of LEB128 numbers, padding and tuples, proved of the definitions that the contracts cite.
#![tactic(auto)]

ghost use Rattle.known.specs.Known.{Known};

/// Carries the proof of the known values, all in one; there is nothing to run.
#[tactic(auto, unfolding(leb128::specs::Leb128::spelling))]
pub fn known_values()
    ensures { Known }
{}
