// C-13: what the differences say of a listing and its output under the optimizer's own list. No code.
#![tactic(auto)]
