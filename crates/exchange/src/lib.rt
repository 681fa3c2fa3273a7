// What holds of a host and a panel together. There is no code here: specs/ says what some panel in its ranges writes, and
// proofs/Theorems.antt that a panel hears what a host composes, and that a host reads exactly what a panel writes.

#![tactic(auto)]
