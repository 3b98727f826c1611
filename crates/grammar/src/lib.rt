// C-19: which texts are lines, of which statement, and the column of a text that is none: definitions, and the theorems about
// expressions. No code.
#![tactic(auto)]
