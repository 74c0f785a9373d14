// What an outline hides (demand 3): digits, and in the first reading what stands inside quotes and text fields.
// Theorems only.
#![tactic(auto)]
