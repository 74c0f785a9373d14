// The round trip: what is rendered of a sound store is read back to a store that says the same. Theorems only.
#![tactic(auto)]
