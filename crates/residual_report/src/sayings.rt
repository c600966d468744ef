// The lines about files that cannot be compared.
use error_lines::say_of;
use file_words::{say_differ, say_place, say_unread};
use outcomes::Outcome;
use system::System;
use wave_file::WaveFile;

// Files of different rates or numbers of channels cannot be compared frame by frame, nor can a channel that a file does
// not have.
pub(crate) fn comparable(
    system: &System,
    first: &[u8],
    second: &[u8],
    a: WaveFile,
    b: WaveFile,
    channel: Option<u8>,
) -> bool {
    if a.rate != b.rate {
        say_differ(
            system,
            b"residual",
            first,
            second,
            a.rate,
            b.rate,
            b" Hz: only files of one rate can be compared: bring one to the other's, as by: sox FILE -r RATE OUT.wav\n",
        );
        return false;
    }
    if a.channels != b.channels {
        say_differ(
            system,
            b"residual",
            first,
            second,
            a.channels as u32,
            b.channels as u32,
            b" channels: only files of as many can be compared: write one channel, as by: sox FILE OUT.wav remix 1\n",
        );
        return false;
    }
    if channel.is_some_and(|c| c > a.channels) {
        say_of(system, b"residual", first, b" has one channel only\n");
        return false;
    }
    true
}

pub(crate) fn say_outcome(system: &System, name: &[u8], outcome: Outcome) {
    if outcome.io != 0 {
        say_unread(system, b"residual", name, outcome.io);
        return;
    }
    if outcome.number == 15 {
        say_place(
            system,
            b"residual",
            name,
            15,
            outcome.frame,
            outcome.channel,
            b" is not a number, infinite or past full scale: bring its level down, as by: sox FILE OUT.wav gain -6\n",
        );
        return;
    }
    say_of(
        system,
        b"residual",
        name,
        b" is refused by 8: more than 68719476736 frames: compare a part of them by frames=\n",
    );
}
