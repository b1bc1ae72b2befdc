// The theory of the fewest terms: definitions in specs/, theorems in proofs/ (proofs/Fewest.antt and proofs/Leading.antt end it). No code.
#![tactic(auto)]
