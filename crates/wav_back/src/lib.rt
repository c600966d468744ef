// Laws only: a WAV file that was written is read back, whatever bytes follow it (W2b, W2c).

#![tactic(auto)]
