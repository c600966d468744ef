// The rule for which refusal is given when several tests fail: the first in a table of tests, which in document 01 is
// the lowest number (N9).
// It is defined and proved once, for readers, tables, wander, files and the residual.
#![tactic(auto)]

ghost use Rattle.std.specs.Prelude.{◌≡◌, ◌&&◌};

// `a && b` without a branch: both arguments are already computed.
pub fn both(a: bool, b: bool) -> bool
    ensures { result ≡ a && b }
{
    if a { b } else { false }
}
