// What holds over many calls of an oversampled reader, and inside one: the accepted numbers, and that nothing but an
// overflow is refused inside (W11d, W11i).
// There is no code.

#![tactic(auto)]
