#![tactic(auto)]

// No code: what is printed, as a function of the bytes that each pass read. See proofs/Theorems.antt.
