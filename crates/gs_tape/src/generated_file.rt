//! The file of a capture that a number generates.

ghost use Rattle.std.specs.Prelude.{◌≡◌, ◌≢◌, ◌≤◌, Err, IsErrOf, OnErr, OnOk};
ghost use Rattle.std.specs.Io.KnownBytes.{Appends};
ghost use Rattle.gs_bytes.specs.Outside.{AppendsPart, Rose};
ghost use Rattle.gs_tape.specs.Capture.{file};
ghost use Rattle.gs_tape.specs.Generated.{generated};
ghost use Rattle.gs_tape.specs.Limits.{generated_audio, generated_duration, most_generated};

use crate::generator::Generator;
use crate::limits::{GENERATED_AUDIO, GENERATED_DURATION};
use crate::write_error::WriteError;
use crate::writer::TapeWriter;
use gs_bytes::Sink;
use std::alloc::Global;

/// Writes the file of the capture that a number generates, with so many ticks. At an error a front of it
/// was written, and not all of it.
pub fn write_generated<K: Sink>(
    alloc: Global,
    number: u32,
    ticks: u32,
    out: &mut K,
) -> Result<(), WriteError>
    requires { ticks ≤ most_generated }
    ensures ok { OnOk result (Appends (K.written out.old) (K.written out.new)
        (file generated_audio generated_duration (generated number ticks))) }
    ensures err { OnErr result (AppendsPart (K.written out.old) (K.written out.new)
        (file generated_audio generated_duration (generated number ticks))) }
    ensures never_falls { K.faults out.old ≤ K.faults out.new }
    ensures fault { IsErrOf result WriteError.WriteFault → Rose (K.faults out.old) (K.faults out.new) }
    ensures counted { K.faults out.new ≢ K.faults out.old → result ≡ Err WriteError.WriteFault }
{
    let mut generator = Generator::new(number, ticks);
    let mut writer = TapeWriter::open(alloc, GENERATED_AUDIO, GENERATED_DURATION, out)?;
    'ticks: while let Some(tick) = generator.next(alloc)? {
        writer.put(&tick, out)?;
    }
    writer.end(out)
}
