// Texts that both readings read to equal records (document 02, Three). Theorems only.
#![tactic(auto)]
