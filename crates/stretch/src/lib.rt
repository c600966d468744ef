// The definition and laws of a stretch of calls, for any reader (W3a to W3h).
// There is no code.

#![tactic(auto)]
