// What a drawing is and who sees whom in it: definitions and theorems, see specs/Lib.antt
// and proofs/Lib.antt. No code.
#![tactic(auto)]
