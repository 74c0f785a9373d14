// Document 01's worked readings, as one list under one claim, which is computed. Theorems only.
#![tactic(auto)]
