// A room of tables for C (W4): opening it, asking for a set and giving it up.
ghost use Rattle.std.specs.Prelude.{◌≡◌};
ghost use Rattle.set_room.specs.Room.{room_of, open_due, opened};
ghost use Rattle.room_codes.specs.Coded.{ask_left, leaves, give_up_number, given_up_room};

#[unsafe(no_mangle)]
pub extern "C" fn fugnadri_room_open(rates: &mut [f64], marks: &mut [u8], slots: &[f32]) -> u8
    ensures value { result ≡ open_due (room_of rates.old marks.old slots.now) }
    ensures slots_after { room_of rates.new marks.new slots.now
        ≡ opened (room_of rates.old marks.old slots.now) }
{
    set_room::open(&mut rates[..], &mut marks[..], slots)
}

// Writes the number of the granted slot, 0 if the ask is refused.
#[unsafe(no_mangle)]
pub extern "C" fn fugnadri_room_ask(
    desk: u8,
    rate: f64,
    mode: u8,
    rates: &mut [f64],
    marks: &mut [u8],
    slots: &mut [f32],
    slot: &mut usize,
) -> u8
    ensures { leaves result slot.new (room_of rates.new marks.new slots.new)
        ≡ ask_left desk rate mode (room_of rates.old marks.old slots.old) }
{
    room_codes::ask(
        desk,
        rate,
        mode,
        &mut rates[..],
        &mut marks[..],
        &mut slots[..],
        slot,
    )
}

#[unsafe(no_mangle)]
pub extern "C" fn fugnadri_room_give_up(
    desk: u8,
    rate: f64,
    mode: u8,
    rates: &[f64],
    marks: &mut [u8],
    slots: &[f32],
) -> u8
    ensures value { result ≡ give_up_number desk rate mode (room_of rates.now marks.old slots.now) }
    ensures slots_after { room_of rates.now marks.new slots.now
        ≡ given_up_room desk rate mode (room_of rates.now marks.old slots.now) }
{
    room_codes::give_up(desk, rate, mode, rates, &mut marks[..], slots)
}
