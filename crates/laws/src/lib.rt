// Mathematics that has nothing to do with meshes: definitions in specs/, laws in proofs/, no code.
#![tactic(auto)]
