// What holds over many calls of a quality reader: how many calls are mixed (Q1, Q2), that no share jumps by the second
// rule (W9), and what the count and the ring are (K8). There is no code.

#![tactic(auto)]
