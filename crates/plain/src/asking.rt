// What the arguments of `plain FROM TO` ask for. The program has no settings.
use arguments::Argument;
use system::{STANDARD_ERROR, System};
use words_asked::{
    Names, none, of_two, refused, say_bad, say_elsewhere, say_too_long, say_unknown, with_file,
};

pub(crate) fn to_copy(system: &System) -> Names {
    let mut names = none();
    for i in 1..system.arg_count() {
        names = with_argument(system, names, i);
    }
    both_named(system, names)
}

pub(crate) fn help_asked(system: &System) -> bool {
    let mut words = [0u8; 4096];
    let n = system.arg(1, &mut words).unwrap_or(0);
    words_asked::is_help(&words[..n])
}

pub(crate) fn tell_usage(system: &System, fd: i32) {
    system.write_all(
        fd,
        b"usage: ./run plain FROM TO (./run --help tells more)\n",
    );
}

// Unless exactly two files were named, the usage is shown and the names are not good.
fn both_named(system: &System, names: Names) -> Names {
    if !names.good {
        return names;
    }
    let two = of_two(names);
    if !two.good {
        tell_usage(system, STANDARD_ERROR);
    }
    two
}

fn with_argument(system: &System, names: Names, i: usize) -> Names {
    let mut words = [0u8; 4096];
    let Some(n) = system.arg(i, &mut words) else {
        say_too_long(system, b"plain");
        return refused(names);
    };
    with_text(system, names, i, &words[..n])
}

fn with_text(system: &System, names: Names, i: usize, words: &[u8]) -> Names {
    match arguments::meaning(words) {
        Argument::File => with_file(names, i),
        Argument::Unknown => {
            say_unknown(system, b"plain", words);
            refused(names)
        }
        Argument::Bad(name) => {
            say_bad(system, b"plain", words, name);
            refused(names)
        }
        _ => {
            say_elsewhere(system, b"plain", words);
            refused(names)
        }
    }
}
