// What holds over many calls of a reader: the accepted count, and what the ring holds (K8).
// There is no code.

#![tactic(auto)]
