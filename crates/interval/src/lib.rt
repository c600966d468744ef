// Laws about order: what lies between two floats stays between two floats through one rounding.
// There is no code.

#![tactic(auto)]
