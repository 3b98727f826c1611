// C-16 and C-19 joined: the listing that is written for people and then read again. No code.
#![tactic(auto)]
