// The agreement of the two engines.
#![tactic(auto)]
