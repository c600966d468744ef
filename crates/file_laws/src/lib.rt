// W10c, W12. Laws over file_turns, no code: a recording in any layout, read step by step, gives the same answer as the
// whole file at once.

#![tactic(auto)]
