// No code: the promises of all crates, gathered in specs/ and proved in proofs/.

#![tactic(auto)]
