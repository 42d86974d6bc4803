// What an accepted journal keeps: demand 3 as one statement in specs/, its proof in proofs/, no code.
#![tactic(auto)]
