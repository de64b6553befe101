// The grammar of queries is in specs/, its agreement with the reading in proofs/.
#![tactic(auto)]
