// What the exported functions keep, that each contract admits one outcome, and worked examples. Theorems only.
#![tactic(auto)]
