// What functions leave in the buffers that they are lent: definitions and laws
// only, for numbers and for bytes alike.

#![tactic(auto)]
