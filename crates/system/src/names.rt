// Files by their names, which are bytes as an argument has them. Std's paths are UTF-8, so another name fails.
use crate::{NOT_UTF8, System};
use std::fs;
use std::fs::{File, OpenOptions};

impl System {
    // Opens a file for reading, and gives its number, or -1.
    pub fn open_read(&self, name: &[u8]) -> i32 {
        match self.path(name) {
            Some(path) => self.opened(File::open(&self.rt, path)),
            None => -1,
        }
    }

    // Makes a file under a name that no file has, and gives its number, or -1.
    pub fn create(&self, name: &[u8]) -> i32 {
        match self.path(name) {
            Some(path) => {
                let mut how = OpenOptions::new();
                how.write(true).create_new(true);
                self.opened(how.open(&self.rt, path))
            }
            None => -1,
        }
    }

    pub fn unlink(&self, name: &[u8]) -> bool {
        match self.path(name) {
            Some(path) => self.works(fs::remove_file(&self.rt, path)),
            None => false,
        }
    }

    pub fn rename(&self, from: &[u8], to: &[u8]) -> bool {
        match self.path(from) {
            Some(source) => match self.path(to) {
                Some(target) => self.works(fs::rename(&self.rt, source, target)),
                None => false,
            },
            None => false,
        }
    }

    fn path<'a>(&self, name: &'a [u8]) -> Option<&'a str> {
        match str::from_utf8(name) {
            Ok(path) => Some(path),
            Err(_) => {
                self.reason.set(NOT_UTF8);
                None
            }
        }
    }
}
