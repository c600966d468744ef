// The files' places among a program's arguments, and what is said of an argument that cannot be used. What an argument
// means is proved in `arguments`, and what it changes in `asked`; each program loops over its own arguments.
#![tactic(auto)]

ghost use Rattle.std.specs.Prelude.{◌≡◌};
ghost use Rattle.words_asked.specs.Names.{no_names, with_file, refused_names, of_two};
ghost use Rattle.words_asked.specs.Words.{is_help};

mod words; // what is said

pub use words::{say_bad, say_elsewhere, say_too_long, say_unknown};

// The places of the two files among the arguments, 0 for none, and how many files were named, at most 3. `good` is
// false if an argument cannot be used.
#[derive(Clone, Copy)]
pub struct Names {
    pub first: usize,
    pub second: usize,
    pub files: u8,
    pub good: bool,
}

pub fn none() -> Names
    ensures { result ≡ no_names }
{
    Names {
        first: 0,
        second: 0,
        files: 0,
        good: true,
    }
}

pub fn with_file(names: Names, i: usize) -> Names
    ensures { result ≡ with_file names i }
{
    match names.files {
        0 => Names {
            first: i,
            files: 1,
            ..names
        },
        1 => Names {
            second: i,
            files: 2,
            ..names
        },
        _ => Names { files: 3, ..names },
    }
}

pub fn refused(names: Names) -> Names
    ensures { result ≡ refused_names names }
{
    Names {
        good: false,
        ..names
    }
}

// The names stay good if exactly two files were named.
pub fn of_two(names: Names) -> Names
    ensures { result ≡ of_two names }
{
    let good = names.good && names.files == 2;
    Names { good, ..names }
}

// Whether an argument asks for the usage: `--help` or `-h`.
#[tactic(auto, unfolding(text::specs::Text::ascii))]
pub fn is_help(words: &[u8]) -> bool
    ensures { result ≡ is_help words.now }
{
    spelling::same(words, b"--help") || spelling::same(words, b"-h")
}
