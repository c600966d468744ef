// Laws only: the taps on which a reading depends, for every kernel and for every quality of a bank (W7d). There is no
// code.

#![tactic(auto)]
