// Runs that the checker computes from the definitions of crates/rules, on both sides of each edge; nothing stands on them. No code.
#![tactic(auto)]
