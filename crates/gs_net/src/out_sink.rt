//! A writer, as standard output is, as a sink.

ghost use Rattle.std.specs.Prelude.{◌≡◌};

use crate::counts::counted;
use gs_bytes::{Failed, Outside, Sink};
use std::io::{self, Write};
use std::marker::Model;

/// A writer of std as a sink: over `rt.stdout()` standard output, which tells no contents. Each
/// write goes straight to the writer, and `Stdout` hands it straight to the system, so nothing is
/// left in a buffer that could fail later.
#[derive(Drop)]
pub struct OutSink<W> {
    out: W,
    faults: u64,
}

impl<W> Model for OutSink<W> {
    ghost use Rattle.gs_net.specs.Adapter.{Counted};

    ghost Value = { Counted W };

    ghost view = { λ s. record { inner = s.out; faults = s.faults } };
}

impl<W> OutSink<W> {
    /// A sink that writes there.
    pub fn new(out: W) -> OutSink<W>
        ensures inner { result.inner ≡ out }
        ensures faults { result.faults ≡ 0 }
    {
        OutSink { out, faults: 0 }
    }

    /// How many writes have failed.
    pub fn faults(&self) -> u64
        ensures { result ≡ self.now.faults }
    {
        self.faults
    }
}

impl<W: Write> Outside for OutSink<W> {
    ghost faults = { λ sink. sink.faults };

    ghost written = { λ sink. W.contents sink.inner };
}

impl<W: Write> Sink for OutSink<W> {
    ghost use Rattle.std.specs.Prelude.{◌≡◌, ◌≤◌, ◌<◌, IfOk, length};
    ghost use Rattle.std.specs.Io.KnownBytes.{WriteAppends};
    ghost use Rattle.gs_bytes.specs.Outside.{IsCountedWrite};

    fn write(&mut self, piece: &[u8]) -> Result<usize, Failed>
        requires { 0 < length piece.now }
        ensures bound { IfOk result (λ n. n ≤ length piece.now) }
        ensures written { WriteAppends (W.contents self.old.inner) (W.contents self.new.inner) result piece.now }
        ensures never_falls { self.old.faults ≤ self.new.faults }
        ensures counted { IsCountedWrite self.old.faults self.new.faults result }
        ensures takes { IfOk result (λ n. 0 < n) }
    {
        let outcome = match self.out.write(piece) {
            Ok(0) => Err(io::Error::from(io::ErrorKind::WriteZero)),
            outcome => outcome,
        };
        counted(&mut self.faults, outcome)
    }
}
