// No entry points, and no function: what lists are made of in definitions and proofs, by their entries, by a part that is written anew, by a property
// of each number. It is what loops over lent lists are proved with.
#![tactic(auto)]
