// What follows of writing STL: any level of the refined tables can be written, from its own part of them.
#![tactic(auto)]
