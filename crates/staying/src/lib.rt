// Why a rewrite that is tried is not done. specs/ says what is tried at each place and what stands in its way, proofs/ that nothing is
// left out.
#![tactic(auto)]

use rules::Refusal;

// `Counts` is the reason of a rewrite that would be done: where no rewrite remains, no attempt has it.
#[derive(Clone, Copy)]
pub enum Reason {
    Counts,
    Change, // the Jmpf is a change jump
    Inside, // an inner label with offset 1 or more stands in the run right before the instruction
    Between, // an inner label stands between the statements of the pattern
    Beyond, // an offset is not below the size of its owner: a pad became too short
    Refused(Refusal), // what is left does not assemble
}
