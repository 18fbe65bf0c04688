// No code: a net written as a table, which is judged and read again as that net, in proofs/.
#![tactic(auto)]
