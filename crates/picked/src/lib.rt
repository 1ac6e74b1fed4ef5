// What follows of asking for one halfedge: the answer is what stands in the refined tables.
#![tactic(auto)]
