// Texts compared byte by byte, and split at the first `=`.
#![tactic(auto)]

ghost use Rattle.std.specs.Prelude.{◌≡◌, ◌≤◌, length};
ghost use Rattle.spelling.specs.Words.{same_bytes, split_in, in_name, all_in_name, is_named};

pub fn same(a: &[u8], b: &[u8]) -> bool
    ensures { result ≡ same_bytes a.now b.now }
{
    a.len() == b.len() && a.iter().zip(b.iter()).all(|(x, y)| *x == *y)
}

// The place of the first `=`, or the end if there is none.
pub fn split(text: &[u8]) -> usize
    ensures value { result ≡ split_in text.now }
    ensures upper_bound { result ≤ length text.now }
{
    byte_marks::find(text, b'=')
}

// Whether an argument is NAME=VALUE: only letters, `-` and `_`, at least one, stand before its first `=`. So
// `./a=b.wav` is a file.
pub fn is_named(text: &[u8]) -> bool
    ensures { result ≡ is_named text.now }
{
    let at = split(text);
    if at == 0 {
        return false;
    }
    if text.len() <= at {
        return false;
    }
    all_in_name(&text[..at])
}

fn all_in_name(text: &[u8]) -> bool
    ensures { result ≡ all_in_name text.now }
{
    text.iter().all(|c| in_name(*c))
}

fn in_name(c: u8) -> bool
    ensures { result ≡ in_name c }
{
    if c < 91 {
        if c < 65 {
            return c == b'-';
        }
        return true;
    }
    if c < 97 {
        return c == b'_';
    }
    c < 123
}
