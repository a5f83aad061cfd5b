// Laws of the definitions of format, each once: proofs/.
#![tactic(auto)]
