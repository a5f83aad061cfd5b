// The demands, each one theorem with a name: proofs/.
#![tactic(auto)]
