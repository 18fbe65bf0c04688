// What is promised of the calls together; no code.
#![tactic(auto)]
