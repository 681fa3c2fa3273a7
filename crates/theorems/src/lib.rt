// What holds of the whole panel over sequences of calls. There is no code here: specs/ says what a sequence is, and
// proofs/Theorems.antt what holds of each.

#![tactic(auto)]
