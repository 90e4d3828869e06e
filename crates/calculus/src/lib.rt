// The calculi Λcall and Λlog on trees: definitions in specs/, theorems in proofs/, no function.
#![tactic(auto)]
