// Every range and every order of refusals that documents 01 and 02 name, proved at its ends.
// Each fact says what is accepted at the end, what is refused one step beyond it, and by which number. The facts have
// no variables, so a change that moves an end in code and definition together is noticed. There is no code.

#![tactic(auto)]
