// What the registrar's programs ask of the system: files, the standard streams, the arguments, the terminal and the
// time. An open file has a number, as C's descriptors have: 1 and 2 are standard output and standard error. A call that
// fails leaves its reason, which the next failure replaces. What a file gives or takes no contract can say.
#![tactic(auto)]

ghost use Rattle.std.specs.Prelude.{◌≤◌, length, IfSome};

mod names; // files by their names

use std::cell::{Cell, RefCell};
use std::env::FillError;
use std::fs::File;
use std::io;
use std::io::{IsTerminal, Seek, SeekFrom, Write};
use std::os::unix::fs::FileExt;
use std::rt::{Clock, Env};

pub const STANDARD_OUTPUT: i32 = 1;

pub const STANDARD_ERROR: i32 = 2;

// The reasons that are told apart or made here, by Linux' numbers: a failure that has no number, a number of no open
// file, no memory, a file that exists, and a name that is not UTF-8, which std cannot open.
const FAILED: i32 = 5;

const NOT_OPEN: i32 = 9;

const NO_MEMORY: i32 = 12;

const EXISTS: i32 = 17;

const NOT_UTF8: i32 = 84;

// The first file that is opened has this number.
const FIRST: usize = 3;

#[derive(Drop)]
pub struct System {
    rt: HostRuntime,
    files: RefCell<Vec<Option<File>>>,
    reason: Cell<i32>,
}

impl System {
    pub fn new(rt: HostRuntime) -> System {
        let files = Vec::new(rt.alloc());
        System {
            rt: rt,
            files: RefCell::new(files),
            reason: Cell::new(0),
        }
    }

    // Whether the last call that failed did so because a file of that name exists.
    pub fn existed(&self) -> bool {
        self.reason.get() == EXISTS
    }

    fn fails(&self, error: &io::Error) {
        self.reason.set(error.raw_os_error().unwrap_or(FAILED));
    }

    // Whether a call worked; the reason is kept where it did not.
    fn works(&self, done: io::Result<()>) -> bool {
        match done {
            Ok(()) => true,
            Err(error) => {
                self.fails(&error);
                false
            }
        }
    }

    // Keeps the reason of a call about a number of no open file, which does not work.
    fn not_open(&self) -> bool {
        self.reason.set(NOT_OPEN);
        false
    }

    // The number of a file that was opened, or -1.
    fn opened(&self, file: io::Result<File>) -> i32 {
        match file {
            Ok(file) => self.numbered(file),
            Err(error) => {
                self.fails(&error);
                -1
            }
        }
    }

    fn numbered(&self, file: File) -> i32 {
        if let Ok(mut files) = self.files.try_borrow_mut() {
            let number = files.len().saturating_add(FIRST);
            if let Ok(()) = files.push(Some(file)) {
                return i32::try_from(number).unwrap_or(-1);
            }
        }
        self.reason.set(NO_MEMORY);
        -1
    }

    // The number of bytes that were read from a place on into the beginning of a slice, or none where that fails.
    pub fn read_at(&self, number: i32, bytes: &mut [u8], at: u64) -> Option<usize>
        ensures { IfSome result (λ n. n ≤ length bytes.new) }
    {
        match self.files.try_borrow() {
            Ok(files) => match files.get(place_of(number)) {
                Some(Some(file)) => match file.read_at(bytes, at) {
                    Ok(n) => Some(n),
                    Err(error) => {
                        self.fails(&error);
                        None
                    }
                },
                _ => {
                    self.not_open();
                    None
                }
            },
            Err(_) => {
                self.not_open();
                None
            }
        }
    }

    // The length of an open file, or none where it has none.
    pub fn length(&self, number: i32) -> Option<u64> {
        match self.files.try_borrow() {
            Ok(files) => match files.get(place_of(number)) {
                Some(Some(file)) => {
                    let mut moved = file;
                    match moved.seek(SeekFrom::End(0)) {
                        Ok(n) => Some(n),
                        Err(error) => {
                            self.fails(&error);
                            None
                        }
                    }
                }
                _ => {
                    self.not_open();
                    None
                }
            },
            Err(_) => {
                self.not_open();
                None
            }
        }
    }

    // Writes all bytes, and tells whether they were taken.
    pub fn write_all(&self, number: i32, bytes: &[u8]) -> bool {
        if number == STANDARD_OUTPUT {
            return self.works(self.rt.stdout().write_all(bytes));
        }
        if number == STANDARD_ERROR {
            return self.works(self.rt.stderr().write_all(bytes));
        }
        self.write_file(number, bytes)
    }

    fn write_file(&self, number: i32, bytes: &[u8]) -> bool {
        match self.files.try_borrow() {
            Ok(files) => match files.get(place_of(number)) {
                Some(Some(file)) => {
                    let mut written = file;
                    self.works(written.write_all(bytes))
                }
                _ => self.not_open(),
            },
            Err(_) => self.not_open(),
        }
    }

    // Waits until what was written has reached its device.
    pub fn sync(&self, number: i32) -> bool {
        match self.files.try_borrow() {
            Ok(files) => match files.get(place_of(number)) {
                Some(Some(file)) => self.works(file.sync_all()),
                _ => self.not_open(),
            },
            Err(_) => self.not_open(),
        }
    }

    // Closes a file. Std does not tell whether closing failed.
    pub fn close(&self, number: i32) -> bool {
        match self.files.try_borrow_mut() {
            Ok(mut files) => match files.get_mut(place_of(number)) {
                Some(slot) => match slot.take() {
                    Some(_) => true,
                    None => self.not_open(),
                },
                None => self.not_open(),
            },
            Err(_) => self.not_open(),
        }
    }

    // How many arguments there are, the program's name among them.
    pub fn arg_count(&self) -> usize {
        let mut words = [0u8; 4096];
        for i in 0..usize::MAX {
            match self.rt.arg(i, &mut words) {
                Err(FillError::NotPresent) => return i,
                _ => {}
            }
        }
        usize::MAX
    }

    // Puts an argument at the start of a slice and gives its length, or none where it is longer. One that is absent is
    // empty.
    pub fn arg(&self, i: usize, words: &mut [u8]) -> Option<usize>
        ensures { IfSome result (λ n. n ≤ length words.new) }
    {
        match self.rt.arg(i, words) {
            Ok(n) => Some(n),
            Err(FillError::NotPresent) => Some(0),
            Err(FillError::TooLong) => None,
        }
    }

    // Whether standard error is a terminal.
    pub fn is_terminal(&self) -> bool {
        self.rt.stderr().is_terminal()
    }

    // The seconds since 1970.
    pub fn second(&self) -> i64 {
        match self.rt.since_1970() {
            Ok(time) => i64::try_from(time.as_secs()).unwrap_or(0),
            Err(_) => 0,
        }
    }

    // Writes a line to standard error: what failed, as the caller says it, a colon, and the reason of the last call
    // that failed.
    pub fn fail(&self, what: &[u8]) {
        let error = io::Error::from_raw_os_error(self.reason.get());
        self.write_all(STANDARD_ERROR, what);
        self.write_all(STANDARD_ERROR, b": ");
        self.write_reason(&error);
        self.write_all(STANDARD_ERROR, b"\n");
    }

    // The system's words alone, without the number that std puts behind them.
    fn write_reason(&self, error: &io::Error) {
        if let Ok(text) = format!(in self.rt.alloc(); "{error}") {
            match text.as_str().split_once(" (os error ") {
                Some((words, _)) => self.write_all(STANDARD_ERROR, words.as_bytes()),
                None => self.write_all(STANDARD_ERROR, text.as_bytes()),
            };
        }
    }
}

// A number below the first gives a place that no file has.
fn place_of(number: i32) -> usize {
    usize::try_from(number).unwrap_or(0).wrapping_sub(FIRST)
}
