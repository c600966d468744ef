// The proof that the contracts of whole stretches, of a desk's reader, of a room and of the oversampled readers leave
// nothing open: they determine the whole answer and all that is written (C1).
// There is no code.

#![tactic(auto)]
