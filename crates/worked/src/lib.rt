// The worked cases of document 01: a table and its proof, no code.
#![tactic(auto)]
