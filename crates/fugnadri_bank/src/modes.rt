// W5. A set and a bank built in a mode of the sum that stands for I0: 0 is the ported one and 1 the full one; any other
// number is refused by 1.
ghost use Rattle.std.specs.Prelude.{◌≡◌, length};
ghost use Rattle.bessel.specs.Modes.{mode_of, due_in};
ghost use Rattle.windowed_sinc.specs.Table.{table_after};
ghost use Rattle.sinc_bank_f32.specs.Sets.{set_in, bank_in};
ghost use Rattle.sinc_bank_f32.specs.Building.{set_verdict, bank_verdict, built_by, number_of};

use crate::bank::number;
use bessel::{known, of_code};

#[unsafe(no_mangle)]
pub extern "C" fn fugnadri_bank_build_set_in(rate: f64, mode: u8, set: &mut [f32]) -> u8
    ensures value { result ≡ due_in mode (set_verdict rate (length set.old)) }
    ensures set_after { set.new
        ≡ table_after (due_in mode (set_verdict rate (length set.old)))
        (set_in (mode_of mode) rate) set.old }
{
    if known(mode) {
        return sinc_bank_f32::build_set_in(rate, of_code(mode), &mut set[..]);
    }
    1
}

#[unsafe(no_mangle)]
pub extern "C" fn fugnadri_bank_build_in(max_rate: f64, mode: u8, sets: &mut [f32]) -> u8
    ensures value { result ≡ number_of (built_by (due_in mode (bank_verdict max_rate (length sets.old))) max_rate) }
    ensures sets_after { sets.new
        ≡ table_after (due_in mode (bank_verdict max_rate (length sets.old)))
        (bank_in (mode_of mode) max_rate) sets.old }
{
    if known(mode) {
        return number(sinc_bank_f32::build_in(max_rate, of_code(mode), &mut sets[..]));
    }
    1
}
