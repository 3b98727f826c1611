// For the auditor: the definitions once more, in the form that is easiest to believe, and promises of single sentences. specs/ says them,
// proofs/ proves them. No code.
#![tactic(auto)]
