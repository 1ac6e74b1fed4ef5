// What follows of reading and writing, for each form of a cage file: both round trips, that a longer file reads alike, and what the moves
// between the forms rest on. Laws alone, no code.
#![tactic(auto)]
