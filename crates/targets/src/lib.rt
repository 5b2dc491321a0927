// How the code carries a call out, on the cells that it found for its accesses: definitions for contracts, and laws. There is no code here.
#![tactic(auto)]
