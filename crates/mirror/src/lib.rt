// What follows of refining a cage and its mirror image: the two differ by the sign of one coordinate, at every level.
#![tactic(auto)]
