// The values of a store that may be compared: scope, name and row say which one it is, and rows have no gaps. Theorems only.
#![tactic(auto)]
