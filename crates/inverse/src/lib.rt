// No code: that the calls on the numbers of unfolded events and conditions undo each other, in proofs/.
#![tactic(auto)]
