// What every level of a cage keeps of it, told of the tables: the statement in specs/, its proof in proofs/, no code.
#![tactic(auto)]
