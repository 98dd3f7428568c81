#![tactic(auto)]

// No code.
