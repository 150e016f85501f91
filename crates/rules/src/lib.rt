// The cutting theory: definitions and first laws in specs/, theorems that rest on an edited definition in proofs/. No
// code.
#![tactic(auto)]
