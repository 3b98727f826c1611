// The promises of the customer's letter, as theorems about the definitions of crates/rules: specs/ says what is promised, proofs/ proves it. No code.
#![tactic(auto)]
