// Work arrays: what stands at their places, what filling one leaves, and members of lists, in specs/ and proofs/. There
// is no code: the library fills and widens.
#![tactic(auto)]
