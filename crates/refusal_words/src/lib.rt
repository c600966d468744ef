// Why a recording is refused, by the number that reading it gives, in words that say what to do. They follow the file's
// name and end the line.
#![tactic(auto)]

ghost use Rattle.std.specs.Prelude.{◌≡◌, length};
ghost use Rattle.text.specs.Text.{put_at, place_after};
ghost use Rattle.refusal_words.specs.Refusals.{other_refusal, later_refusal, refusal_text};

mod kinds; // 13: what the file says of its samples

use text::put;

fn put_other(out: &mut [u8], at: usize, number: u8) -> usize
    ensures value { result ≡ place_after (length out.old) at (other_refusal number) }
    ensures out_after { out.new ≡ put_at out.old at (other_refusal number) }
{
    let one = put(out, at, b" is refused by ");
    let two = text::put_decimal(out, one, number as u64);
    put(out, two, b": README.md says what that number means\n")
}

// Puts the words for 18 and above.
fn put_later(out: &mut [u8], at: usize, number: u8) -> usize
    ensures value { result ≡ place_after (length out.old) at (later_refusal number) }
    ensures out_after { out.new ≡ put_at out.old at (later_refusal number) }
{
    if number == 18 {
        return put(
            out,
            at,
            b" is refused by 18: its `ds64` is missing or not first, so nobody can tell its sizes: save it anew\n",
        );
    }
    if number == 19 {
        return put(
            out,
            at,
            b" is refused by 19: a size in it is above 1099511627776 bytes: cut the recording in two\n",
        );
    }
    if number == 20 {
        return put(
            out,
            at,
            b" is refused by 20: no AIFF file (AIFC is not read): save it as WAV, for instance by an audio editor\n",
        );
    }
    if number == 21 {
        return put(
            out,
            at,
            b" is refused by 21: `COMM` or `SSND` is missing or too short, or frames are missing: ask for it anew\n",
        );
    }
    if number == 22 {
        return put(
            out,
            at,
            b" is refused by 22: its rate is no whole number from 8000 to 768000: save it anew at such a rate\n",
        );
    }
    put_other(out, at, number)
}

// Puts the words for a number. For 13 they name the kind that the file gives, with zeros if it gives none.
pub fn put_refusal(
    out: &mut [u8],
    at: usize,
    name: &[u8],
    number: u8,
    tag: u32,
    channels: u32,
    block: u32,
    bits: u32,
) -> usize
    ensures value { result ≡ place_after (length out.old) at
        (refusal_text name.now number tag channels block bits) }
    ensures out_after { out.new ≡ put_at out.old at
        (refusal_text name.now number tag channels block bits) }
{
    if number == 9 {
        return put(
            out,
            at,
            b" is refused by 9: no RIFF WAVE file: save it as WAV first, for instance by an audio editor\n",
        );
    }
    if number == 10 {
        return put(
            out,
            at,
            b" is refused by 10: a chunk runs past its end, so it was cut short: copy it again from where it came\n",
        );
    }
    if number == 11 {
        return put(
            out,
            at,
            b" is refused by 11: no `fmt ` before `data`, so nobody can tell what its samples are: save it anew\n",
        );
    }
    if number == 12 {
        return put(
            out,
            at,
            b" is refused by 12: there is no `data`, so it holds no samples: save it anew where it came from\n",
        );
    }
    if number == 13 {
        return kinds::put_refused_kind(out, at, name, tag, channels, block, bits);
    }
    put_later(out, at, number)
}
