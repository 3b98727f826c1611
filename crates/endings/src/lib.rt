// Which statements can end a walk, and for which reason; a program of which there is none walks out of its code or goes on for ever. No code.
#![tactic(auto)]
