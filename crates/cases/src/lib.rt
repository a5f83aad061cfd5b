// Cases of document 01, computed over the definitions of format: the tables are in proofs/.
#![tactic(auto)]
