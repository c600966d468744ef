// Laws only: a header reads the same whatever stands behind the bytes that it needs, and a RIFF file as before (W10).

#![tactic(auto)]
