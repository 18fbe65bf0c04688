// No code: the worked examples of the requirements, asked of the calls' own definitions on the bytes of their tables, in proofs/.
#![tactic(auto)]
