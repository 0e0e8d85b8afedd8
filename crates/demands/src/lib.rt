// No code: the user's demands, as theorems over the crates below (specs/ and proofs/).
#![tactic(auto)]
