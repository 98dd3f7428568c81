#![tactic(auto)]

// Laws of whole numbers, floats, sums, folds and grids that the proofs of several crates share.
