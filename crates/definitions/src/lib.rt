#![tactic(auto)]

// No code: the definitions of document 01 are in specs/, the marked readings in proofs/.
