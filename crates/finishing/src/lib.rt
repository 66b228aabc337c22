// An accepted image that only jumps ahead finishes within main's turn: definitions and laws, no code.
#![tactic(auto)]
