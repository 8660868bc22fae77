// The theory of the cheapest fold: definitions in specs/, theorems in proofs/, no code.
#![tactic(auto)]
