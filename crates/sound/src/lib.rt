// What Read writes is sound: the store and its area, by the lengths that it answers. Theorems only.
#![tactic(auto)]
