// Laws only: two runs of the same calls whose samples differ, and when their answers agree again (W8).
// There is no code.

#![tactic(auto)]
