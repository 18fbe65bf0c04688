// Lists has no code: specs/ holds the vocabulary of lists that every other crate's definitions are written in, proofs/ its laws.
#![tactic(auto)]
