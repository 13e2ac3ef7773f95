#![tactic(auto)]

// No code: the rules of document 01 stand in specs/, what follows from them in proofs/.
