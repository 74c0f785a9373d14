// What the exported functions answer: definitions and laws, and no code.
#![tactic(auto)]
