// The sum of two readings' numbers.
ghost use Rattle.std.specs.Prelude.{◌≡◌};
ghost use Rattle.absent_taps.specs.Absent as numbers;
ghost use Rattle.absent_qualities.specs.Readings.{Few};

use absent_taps::Absent;

// No sum overflows, because no reading has more taps than two tables.
pub(crate) fn plus(a: Absent, b: Absent) -> Absent
    requires { Few a × Few b }
    ensures { result ≡ numbers.plus a b }
{
    Absent {
        unwritten: a.unwritten + b.unwritten,
        ahead: a.ahead + b.ahead,
        overwritten: a.overwritten + b.overwritten,
    }
}
