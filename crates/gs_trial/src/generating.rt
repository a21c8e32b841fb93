// What a number generates.

ghost use Rattle.std.specs.Prelude.{◌≡◌, ◌≢◌, ◌<◌, ◌≤◌, ◌⊎◌, IfErr, IfOk, OnErr, OnOk, length};
ghost use Rattle.std.specs.Io.KnownBytes.{Appends};
ghost use Rattle.gs_tape.specs.Limits.{most_generated};
ghost use Rattle.gs_trial.specs.Trial.{AnswersMake, AnswersTape, CountsFor, IsCause, WritesFront, status_answer};

use crate::error::write_status;
use crate::generated_steps::generated_steps;
use crate::trial::Trial;
use gs_bytes::{OutOfMemory, Sink, Source, write_all};
use gs_command::Generated;
use gs_feed::Feed;
use gs_generated::GeneratedFile;
use gs_reader::PIECE;
use gs_report::Detail;
use gs_run::whole_runs_hold;
use gs_schedule::TrialStatus;
use std::alloc::Global;

/// Writes the generated capture file, piece by piece.
pub(crate) fn write_tape<K: Sink>(
    alloc: Global,
    generated: Generated,
    out: &mut K,
) -> Result<(), TrialStatus>
    requires few { generated.ticks ≤ most_generated }
    ensures answers { AnswersTape generated.number generated.ticks (K.written out.old) (K.written out.new)
        (status_answer result) }
    ensures cause { IfErr result (λ e. (e ≡ TrialStatus.WriteFault) ⊎ (e ≡ TrialStatus.OutOfMemory)) }
    ensures write_faults { CountsFor TrialStatus.WriteFault result (K.faults out.old) (K.faults out.new) }
{
    let Ok(mut tape) = GeneratedFile::open(alloc, generated.number, generated.ticks) else {
        return Err(TrialStatus::OutOfMemory);
    };
    let Ok(mut piece) = zeros(alloc, PIECE) else {
        return Err(TrialStatus::OutOfMemory);
    };
    copy(&mut tape, &mut piece, out)
}

// So many bytes to read into.
fn zeros(alloc: Global, count: usize) -> Result<Vec<u8>, OutOfMemory>
    ensures { IfOk result (λ bytes. length bytes.items ≡ count) }
{
    Ok(vec![in alloc; 0; count]?)
}

// Copies all that is left of a generated file, a piece at a time. Reading it fails for want of memory alone.
fn copy<K: Sink>(tape: &mut GeneratedFile, piece: &mut [u8], out: &mut K) -> Result<(), TrialStatus>
    requires some { 0 < length piece.old }
    ensures all { OnOk result (Appends (K.written out.old) (K.written out.new) tape.old.left) }
    ensures front { OnErr result (WritesFront (K.written out.old) (K.written out.new) tape.old.left) }
    ensures cause { IfErr result (λ e. (e ≡ TrialStatus.WriteFault) ⊎ (e ≡ TrialStatus.OutOfMemory)) }
    ensures write_faults { CountsFor TrialStatus.WriteFault result (K.faults out.old) (K.faults out.new) }
{
    'pieces: loop {
        let Ok(count) = tape.read(piece) else {
            return Err(TrialStatus::OutOfMemory);
        };
        if count == 0 {
            return Ok(());
        }
        if let Err(failed) = write_all(out, &piece[..count]) {
            return Err(write_status(failed));
        }
    }
}

/// Runs the generated schedule over the generated capture, which is read as any file. Reading it fails for want of
/// memory alone.
pub(crate) fn make<K: Sink>(
    alloc: Global,
    generated: Generated,
    out: &mut K,
) -> Result<(), TrialStatus>
    requires few { generated.ticks ≤ most_generated }
    ensures answers { AnswersMake generated.number generated.ticks (K.written out.old) (K.written out.new)
        (status_answer result) }
    ensures cause { IfErr result IsCause }
    ensures not_tape { IfErr result (λ e. e ≢ TrialStatus.TapeFault) }
    ensures not_schedule { IfErr result (λ e. e ≢ TrialStatus.ScheduleFault) }
    ensures write_faults { CountsFor TrialStatus.WriteFault result (K.faults out.old) (K.faults out.new) }
{
    whole_runs_hold();
    let Ok(steps) = generated_steps(alloc, generated.ticks) else {
        return Err(TrialStatus::OutOfMemory);
    };
    let Ok(mut file) = GeneratedFile::open(alloc, generated.number, generated.ticks) else {
        return Err(TrialStatus::OutOfMemory);
    };
    let Ok(feed) = Feed::open(alloc, &mut file) else {
        return Err(TrialStatus::OutOfMemory);
    };
    let mut trial = Trial::new(alloc, feed, Detail::Sums);
    trial.run_steps(&steps, &mut file, out)?;
    trial.finish(&mut file, out)
}
