// The quick test of a room: whether the rates of its held slots rise from slot to slot. Then no two of them are equal,
// and the first and the last show that all are in range.
ghost use Rattle.std.specs.Prelude.{◌≡◌, ◌||◌};
ghost use Rattle.sinc_settings.specs.Ranges.{one-f};
ghost use Rattle.room_marks.specs.Search.{shorter};
ghost use Rattle.desk_slots.specs.Rising.{rises, risen_to, rising_from};

// How many slots there are: with lists of different lengths, those that have a rate and a mark.
fn slots(rates: &[f64], marks: &[u8]) -> usize
    ensures { result ≡ shorter rates.now marks.now }
{
    if rates.len() < marks.len() {
        rates.len()
    } else {
        marks.len()
    }
}

fn rises_here(low: f64, r: f64, mark: u8) -> bool
    ensures { result ≡ rises low r mark }
{
    if mark == 0 {
        return true;
    }
    if mark <= 7 {
        if mark != 4 {
            return r > low;
        }
    }
    false
}

fn risen_to(low: f64, r: f64, mark: u8) -> f64
    ensures { result ≡ risen_to low r mark }
{
    if mark == 0 { low } else { r }
}

pub(crate) fn rising(rates: &[f64], marks: &[u8]) -> bool
    ensures { result ≡ rising_from one-f rates.now marks.now }
{
    let n = slots(rates, marks);
    let mut low: f64 = 1.0;
    for i in 0..n {
        let r = rates[i];
        let mark = marks[i];
        if !rises_here(low, r, mark) {
            return false;
        }
        low = risen_to(low, r, mark);
    }
    low <= 2.0
}
