#![tactic(auto)]

// No code: what the letter demands, proved of runs of calls. See proofs/Demands.antt.
