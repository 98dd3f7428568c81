#![tactic(auto)]

// No code: demand 3 as a statement is in specs/, its proof in proofs/.
