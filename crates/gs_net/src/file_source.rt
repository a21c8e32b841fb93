//! A file to read.

use crate::counts::counted;
use gs_bytes::{Failed, Outside, Source};
use std::fs::File;
use std::io::{self, Read};
use std::marker::Model;
use std::rt::Files;

/// A named file as a source. Where it couldn't be opened, every read fails. `File` of std tells no
/// contents.
#[derive(Drop)]
pub struct FileSource<F> {
    file: Option<F>,
    faults: u64,
}

impl<F> Model for FileSource<F> {
    ghost use Rattle.std.specs.Prelude.{Option};
    ghost use Rattle.gs_net.specs.Adapter.{Counted};

    ghost Value = { Counted (Option F) };

    ghost view = { λ s. record { inner = s.file; faults = s.faults } };
}

impl<F> FileSource<F> {
    ghost use Rattle.std.specs.Prelude.{◌≡◌};

    /// Opens the file for reading.
    pub fn open<R: Files<File = F>>(rt: &R, path: &str) -> FileSource<F>
        ensures { result.faults ≡ 0 }
    {
        FileSource {
            file: File::open(rt, path).ok(),
            faults: 0,
        }
    }

    /// How many reads have failed.
    pub fn faults(&self) -> u64
        ensures { result ≡ self.now.faults }
    {
        self.faults
    }
}

impl<F: Read> Outside for FileSource<F> {
    ghost use Rattle.gs_net.specs.Adapter.{left_in};

    ghost faults = { λ source. source.faults };

    ghost left = { λ source. left_in F.remaining source.inner };
}

impl<F: Read> Source for FileSource<F> {
    ghost use Rattle.std.specs.Prelude.{◌≡◌, ◌≤◌, ◌<◌, ◌↔◌, IfOk, IsNone, length};
    ghost use Rattle.std.specs.Io.KnownBytes.{ReadConsumes};
    ghost use Rattle.gs_bytes.specs.Outside.{IsCounted};
    ghost use Rattle.gs_net.specs.Adapter.{left_in};

    fn read(&mut self, into: &mut [u8]) -> Result<usize, Failed>
        requires { 0 < length into.old }
        ensures bound { IfOk result (λ n. n ≤ length into.new) }
        ensures left { ReadConsumes (left_in F.remaining self.old.inner)
            (left_in F.remaining self.new.inner) result into.new }
        ensures never_falls { self.old.faults ≤ self.new.faults }
        ensures counted { IsCounted self.old.faults self.new.faults result }
        ensures unopened { IsNone self.old.inner → result ≡ Err Failed.Fault }
        ensures stays_unopened { IsNone self.new.inner ↔ IsNone self.old.inner }
    {
        let outcome = match &mut self.file {
            Some(file) => file.read(into),
            None => Err(io::Error::from(io::ErrorKind::NotFound)),
        };
        counted(&mut self.faults, outcome)
    }
}
