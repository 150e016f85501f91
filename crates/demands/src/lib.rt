// Theorems about the answer: see specs/Lib.antt. No code.
#![tactic(auto)]
