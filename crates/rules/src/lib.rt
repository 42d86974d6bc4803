// Document 01's rules on plain lists: definitions in specs/, laws in proofs/, no code.
#![tactic(auto)]
