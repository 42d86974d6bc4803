// What a list of gates does: definitions in specs/, laws in proofs/, no code.
#![tactic(auto)]
