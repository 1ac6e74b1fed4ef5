// Without creases: the points are those of document 01 as it stood before them; definitions in specs/, their laws in proofs/, no code.
#![tactic(auto)]
