// The ten rehearsed cases of document 01 as theorems on bytes: definitions in specs/, proofs in proofs/, no function.
#![tactic(auto)]
