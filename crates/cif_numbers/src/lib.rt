// Numbers and CIF 1.1 in what Read writes: its numerics are stored as what they mean. Theorems only.
#![tactic(auto)]
