// The worked examples that are proved of the definitions; no code.
#![tactic(auto)]
