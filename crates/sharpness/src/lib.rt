// What every level of a cage keeps of its creases, and how many a vertex has there: the statement in specs/, its proof in proofs/, no code.
#![tactic(auto)]
