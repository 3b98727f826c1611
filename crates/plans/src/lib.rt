// C-19: lines as plans, by which they are read byte by byte; that these are the lines of the grammar, and the column. No code.
#![tactic(auto)]
