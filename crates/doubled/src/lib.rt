// Doubled nets have no code: specs/ says how a plain net is played and how a net is doubled, proofs/ shows that the two games are one.
#![tactic(auto)]
