// What Read writes, record by record: its answer, the bytes in store and area, and what they say. Theorems only.
#![tactic(auto)]
