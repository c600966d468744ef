// Laws about loops: a loop as a function of its number of turns, and what a loop writes into a list.
// There is no code.

#![tactic(auto)]
