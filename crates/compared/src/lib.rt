// What Compare keeps (document 02, Four): a store compared with itself, and both ways round. Theorems only.
#![tactic(auto)]
