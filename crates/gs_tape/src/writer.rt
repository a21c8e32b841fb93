//! The writer of capture files.

ghost use Rattle.std.specs.Prelude.{◌≡◌, ◌≢◌, ◌≤◌, ◌∷◌, [], IfOk, IsErrOf, OnErr, OnOk};
ghost use Rattle.std.specs.Io.KnownBytes.{Appends, Keeps};
ghost use Rattle.gs_bytes.specs.Outside.{AppendsPart, KeepsFlag, Rose};
ghost use Rattle.gs_tape.specs.Capture as capture;
ghost use Rattle.gs_tape.specs.Limits.{most_audio, IsDuration};

use crate::layout::{END_TAG, head_bytes, tick_bytes};
use crate::tick::Tick;
use crate::write_error::WriteError;
use gs_bytes::{Sink, write_all};
use std::alloc::Global;
use std::marker::Model;

/// Writes a capture file tick by tick. Contracts see the length of its audio units and what is
/// known before the next tick.
#[derive(Drop)]
pub struct TapeWriter {
    alloc: Global,
    audio: u16,
    number: u32,
    time: u32,
    held: u64,
}

impl Model for TapeWriter {
    ghost use Rattle.std.specs.Prelude.{◌+◌, ◌≤◌};
    ghost use Rattle.gs_tape.specs.Limits.{most_bytes, most_ticks};
    ghost use Rattle.gs_tape.specs.Writer.{TapeWriting};

    ghost Value = { TapeWriting };

    ghost view = { λ w. record { audio = w.audio; next = record { number = w.number; time = w.time; held = w.held } } };

    ghost invariant = { λ w. (w.held ≤ most_bytes) × (w.number ≤ most_ticks + 1) };
}

impl TapeWriter {
    ghost use Rattle.gs_tape.specs.Writer.{IsNextTick, after_tick, opened_writing};

    /// Writes the head of a file with audio units of `audio` bytes and `duration` milliseconds.
    pub fn open<K: Sink>(
        alloc: Global,
        audio: u16,
        duration: u8,
        out: &mut K,
    ) -> Result<TapeWriter, WriteError>
        requires audio { audio ≤ most_audio }
        requires duration { IsDuration duration }
        ensures writer { IfOk result (λ writer. writer ≡ opened_writing audio) }
        ensures ok { OnOk result (Appends (K.written out.old) (K.written out.new) (capture.head audio duration)) }
        ensures err { OnErr result (AppendsPart (K.written out.old) (K.written out.new) (capture.head audio duration)) }
        ensures left { Keeps (K.left out.old) (K.left out.new) }
        ensures taken { Keeps (K.taken out.old) (K.taken out.new) }
        ensures end { KeepsFlag (K.met_end out.old) (K.met_end out.new) }
        ensures never_falls { K.faults out.old ≤ K.faults out.new }
        ensures fault { IsErrOf result WriteError.WriteFault → Rose (K.faults out.old) (K.faults out.new) }
        ensures counted { K.faults out.new ≢ K.faults out.old → result ≡ Err WriteError.WriteFault }
    {
        let bytes = head_bytes(alloc, audio, duration)?;
        write_part(out, bytes.as_slice())?;
        Ok(TapeWriter {
            alloc,
            audio,
            number: 1,
            time: 0,
            held: 0,
        })
    }

    /// Writes the next tick.
    pub fn put<K: Sink>(&mut self, tick: &Tick, out: &mut K) -> Result<(), WriteError>
        requires { IsNextTick self.old tick.now }
        ensures writer { OnOk result (self.new ≡ after_tick self.old tick.now) }
        ensures ok { OnOk result (Appends (K.written out.old) (K.written out.new) (capture.tick tick.now)) }
        ensures err { OnErr result (AppendsPart (K.written out.old) (K.written out.new) (capture.tick tick.now)) }
        ensures kept { OnErr result (self.new ≡ self.old) }
        ensures left { Keeps (K.left out.old) (K.left out.new) }
        ensures taken { Keeps (K.taken out.old) (K.taken out.new) }
        ensures end { KeepsFlag (K.met_end out.old) (K.met_end out.new) }
        ensures never_falls { K.faults out.old ≤ K.faults out.new }
        ensures fault { IsErrOf result WriteError.WriteFault → Rose (K.faults out.old) (K.faults out.new) }
        ensures counted { K.faults out.new ≢ K.faults out.old → result ≡ Err WriteError.WriteFault }
    {
        let bytes = tick_bytes(self.alloc, tick)?;
        write_part(out, bytes.as_slice())?;
        self.number += 1;
        self.time = tick.time;
        self.held += tick.unit_bytes();
        Ok(())
    }

    /// Writes the end mark.
    pub fn end<K: Sink>(self, out: &mut K) -> Result<(), WriteError>
        ensures ok { OnOk result (Appends (K.written out.old) (K.written out.new) (0x45 ∷ [])) }
        ensures err { OnErr result (AppendsPart (K.written out.old) (K.written out.new) (0x45 ∷ [])) }
        ensures left { Keeps (K.left out.old) (K.left out.new) }
        ensures taken { Keeps (K.taken out.old) (K.taken out.new) }
        ensures end { KeepsFlag (K.met_end out.old) (K.met_end out.new) }
        ensures never_falls { K.faults out.old ≤ K.faults out.new }
        ensures fault { IsErrOf result WriteError.WriteFault → Rose (K.faults out.old) (K.faults out.new) }
        ensures counted { K.faults out.new ≢ K.faults out.old → result ≡ Err WriteError.WriteFault }
    {
        write_part(out, &[END_TAG])
    }
}

// Writes all of the bytes, or a part of them where it fails.
fn write_part<K: Sink>(out: &mut K, bytes: &[u8]) -> Result<(), WriteError>
    ensures ok { OnOk result (Appends (K.written out.old) (K.written out.new) bytes.now) }
    ensures err { OnErr result (AppendsPart (K.written out.old) (K.written out.new) bytes.now) }
    ensures left { Keeps (K.left out.old) (K.left out.new) }
    ensures taken { Keeps (K.taken out.old) (K.taken out.new) }
    ensures end { KeepsFlag (K.met_end out.old) (K.met_end out.new) }
    ensures never_falls { K.faults out.old ≤ K.faults out.new }
    ensures fault { IsErrOf result WriteError.WriteFault → Rose (K.faults out.old) (K.faults out.new) }
    ensures counted { K.faults out.new ≢ K.faults out.old → result ≡ Err WriteError.WriteFault }
{
    match write_all(out, bytes) {
        Ok(()) => Ok(()),
        Err(failed) => Err(WriteError::from(failed)),
    }
}
