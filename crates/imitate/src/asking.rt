// What the arguments of `imitate FROM TO [NAME=VALUE …]` ask for.
use arguments::Argument;
use asked::Imitation;
use system::{STANDARD_ERROR, System};
use words_asked::{
    Names, none, of_two, refused, say_bad, say_elsewhere, say_too_long, say_unknown, with_file,
};

#[derive(Clone, Copy)]
pub(crate) struct ToImitate {
    pub names: Names,
    pub settings: Imitation,
}

pub(crate) fn to_imitate(system: &System) -> ToImitate {
    let mut asked = ToImitate {
        names: none(),
        settings: asked::plain_imitation(),
    };
    for i in 1..system.arg_count() {
        asked = with_argument(system, asked, i);
    }
    both_named(system, asked)
}

pub(crate) fn help_asked(system: &System) -> bool {
    let mut words = [0u8; 4096];
    let n = system.arg(1, &mut words).unwrap_or(0);
    words_asked::is_help(&words[..n])
}

pub(crate) fn tell_usage(system: &System, fd: i32) {
    system.write_all(
        fd,
        b"usage: ./run imitate FROM TO [NAME=VALUE ...] (./run --help tells more)\n",
    );
}

// Unless exactly two files were named, the usage is shown and the names are not good.
fn both_named(system: &System, asked: ToImitate) -> ToImitate {
    if !asked.names.good {
        return asked;
    }
    let names = of_two(asked.names);
    if !names.good {
        tell_usage(system, STANDARD_ERROR);
    }
    ToImitate { names, ..asked }
}

fn with_argument(system: &System, asked: ToImitate, i: usize) -> ToImitate {
    let mut words = [0u8; 4096];
    let Some(n) = system.arg(i, &mut words) else {
        say_too_long(system, b"imitate");
        return without(asked);
    };
    with_text(system, asked, i, &words[..n])
}

fn without(asked: ToImitate) -> ToImitate {
    ToImitate {
        names: refused(asked.names),
        ..asked
    }
}

fn with_text(system: &System, asked: ToImitate, i: usize, words: &[u8]) -> ToImitate {
    match arguments::meaning(words) {
        Argument::File => ToImitate {
            names: with_file(asked.names, i),
            ..asked
        },
        Argument::Unknown => {
            say_unknown(system, b"imitate", words);
            without(asked)
        }
        Argument::Bad(name) => {
            say_bad(system, b"imitate", words, name);
            without(asked)
        }
        argument => with_setting(system, asked, words, argument),
    }
}

fn with_setting(system: &System, asked: ToImitate, words: &[u8], argument: Argument) -> ToImitate {
    match asked::imitated_with(asked.settings, argument) {
        Some(settings) => ToImitate { settings, ..asked },
        None => {
            say_elsewhere(system, b"imitate", words);
            without(asked)
        }
    }
}
