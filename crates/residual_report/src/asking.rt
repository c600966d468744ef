// What the arguments of `residual FIRST SECOND [NAME=VALUE …]` ask for, and which of them names the picture, 0 for
// none.
use arguments::Argument;
use asked::Comparison;
use system::{STANDARD_ERROR, System};
use words_asked::{
    Names, none, of_two, refused, say_bad, say_elsewhere, say_too_long, say_unknown, with_file,
};

#[derive(Clone, Copy)]
pub(crate) struct ToCompare {
    pub names: Names,
    pub settings: Comparison,
    pub picture: usize,
}

pub(crate) fn to_compare(system: &System) -> ToCompare {
    let mut asked = ToCompare {
        names: none(),
        settings: asked::plain_comparison(),
        picture: 0,
    };
    for i in 1..system.arg_count() {
        asked = with_argument(system, asked, i);
    }
    both_named(system, asked)
}

pub(crate) fn help_asked(system: &System) -> bool {
    let mut words = [0u8; 4096];
    let n = system.arg(1, &mut words).unwrap_or(0);
    words_asked::is_help(&words[..n])
}

pub(crate) fn tell_usage(system: &System, fd: i32) {
    system.write_all(
        fd,
        b"usage: ./run residual FIRST SECOND [NAME=VALUE ...] (./run --help tells more)\n",
    );
}

// Unless exactly two files were named, the usage is shown and the names are not good.
fn both_named(system: &System, asked: ToCompare) -> ToCompare {
    if !asked.names.good {
        return asked;
    }
    let names = of_two(asked.names);
    if !names.good {
        tell_usage(system, STANDARD_ERROR);
    }
    ToCompare { names, ..asked }
}

fn with_argument(system: &System, asked: ToCompare, i: usize) -> ToCompare {
    let mut words = [0u8; 4096];
    let Some(n) = system.arg(i, &mut words) else {
        say_too_long(system, b"residual");
        return without(asked);
    };
    with_text(system, asked, i, &words[..n])
}

fn without(asked: ToCompare) -> ToCompare {
    ToCompare {
        names: refused(asked.names),
        ..asked
    }
}

fn with_text(system: &System, asked: ToCompare, i: usize, words: &[u8]) -> ToCompare {
    match arguments::meaning(words) {
        Argument::File => ToCompare {
            names: with_file(asked.names, i),
            ..asked
        },
        Argument::Unknown => {
            say_unknown(system, b"residual", words);
            without(asked)
        }
        Argument::Bad(name) => {
            say_bad(system, b"residual", words, name);
            without(asked)
        }
        Argument::Picture => {
            let at_picture = ToCompare {
                picture: i,
                ..asked
            };
            with_setting(system, at_picture, words, Argument::Picture)
        }
        argument => with_setting(system, asked, words, argument),
    }
}

fn with_setting(system: &System, asked: ToCompare, words: &[u8], argument: Argument) -> ToCompare {
    match asked::compared_with(asked.settings, argument) {
        Some(settings) => ToCompare { settings, ..asked },
        None => {
            say_elsewhere(system, b"residual", words);
            without(asked)
        }
    }
}
