//! A sink in memory that never fails but for want of memory.

ghost use Rattle.std.specs.Prelude.{◌≡◌, ◌<◌};

use crate::written::Written;
use crate::{Failed, OutOfMemory, Outside, Sink};
use std::alloc::Global;
use std::marker::Model;

/// A sink in memory that tells its contents and counts no fault.
#[derive(Drop)]
pub struct SureSink {
    bytes: Written,
}

impl Model for SureSink {
    ghost use Rattle.std.specs.Prelude.{◌<◌};
    ghost use Rattle.gs_bytes.specs.Memory.{Writing};

    ghost Value = { Writing };

    ghost view = { λ s. s.bytes };

    ghost invariant = { λ s. 0 < s.bytes.most };
}

impl SureSink {
    ghost use Rattle.std.specs.Prelude.{IfOk};
    ghost use Rattle.gs_bytes.specs.Memory.{unwritten};

    /// A sink that takes at most `most` bytes per write.
    pub fn new(alloc: Global, most: usize) -> Result<SureSink, OutOfMemory>
        requires { 0 < most }
        ensures { IfOk result (λ sink. sink ≡ unwritten most) }
    {
        Ok(SureSink {
            bytes: Written::new(alloc, most),
        })
    }

    /// The bytes that were written.
    pub fn written(&self) -> &[u8]
        ensures { result.now ≡ self.now.written }
    {
        self.bytes.bytes()
    }
}

impl Outside for SureSink {
    ghost use Rattle.std.specs.Prelude.{Some};

    ghost faults = { λ _. 0 };

    ghost written = { λ sink. Some sink.written };
}

impl Sink for SureSink {
    ghost use Rattle.std.specs.Prelude.{◌≡◌, ◌<◌, ◌≤◌, IfOk, IsErrOf, Some, length, min};
    ghost use Rattle.std.specs.Io.KnownBytes.{WriteAppends};
    ghost use Rattle.gs_bytes.specs.Outside.{IsCountedWrite};

    fn write(&mut self, piece: &[u8]) -> Result<usize, Failed>
        requires { 0 < length piece.now }
        ensures bound { IfOk result (λ n. n ≤ length piece.now) }
        ensures written { WriteAppends (Some self.old.written) (Some self.new.written) result piece.now }
        ensures counted { IsCountedWrite 0 0 result }
        ensures most { self.new.most ≡ self.old.most }
        ensures as_much { IfOk result (λ n. n ≡ min self.old.most (length piece.now)) }
        ensures takes { IfOk result (λ n. 0 < n) }
        ensures no_fault { ¬ (IsErrOf result Failed.Fault) }
    {
        Ok(self.bytes.write(piece)?)
    }
}
