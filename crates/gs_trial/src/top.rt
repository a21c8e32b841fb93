// The trial itself.

ghost use Rattle.std.specs.Prelude.{◌≡◌, ◌≢◌, ◌↔◌, ℕ, Some, IsSome, map, string_bytes};
ghost use Rattle.std.specs.Io.KnownBytes.{IsAtEnd};
ghost use Rattle.gs_bytes.specs.Outside.{Rose, SetsFlag};
ghost use Rattle.gs_command.specs.Words.{command_of, first_misfit};
ghost use Rattle.gs_command.specs.declared.command.Detail as spec;
ghost use Rattle.gs_trial.specs.Stopping.{StopsIfTold};
ghost use Rattle.gs_trial.specs.Trial.{Answers, CompletesGenerated, CompletesIfTold, HasHead, IsGenerating};
ghost use Rattle.gs_trial.specs.Trial.{status_answer};

use crate::generating::{make, write_tape};
use crate::script::run_script;
use gs_bytes::{Sink, Source};
use gs_command::{TrialCommand, read_command};
use gs_schedule::TrialStatus;
use std::alloc::Global;

/// Runs the command that the words are, those behind the program's name, over the bytes of a capture file and of a
/// schedule, and writes on `out` what the run reports.
///
/// `script bytes TAPE SCHEDULE` and `script brief TAPE SCHEDULE` run the schedule over the capture file: the file's
/// head is read, then line after line of the schedule, then the rest of the file; then the sums and `ok` are written.
/// The first fault in that order ends it, and the text that was written by then stays. The text of the lines is
/// gathered into pieces of some 64 KiB, and what waits is written before a read of either source: so who types a
/// schedule sees what each line did, and where a read fails nothing that was done before is lost. Where memory runs
/// out what waits isn't written. The text of one line isn't parted: all of it is gathered first, so under `bytes` a
/// line that delivers many datagrams holds the bytes of all units that it hands or plays. `make N T` runs the schedule
/// that is generated over the generated capture, and writes the sums and `ok`. `tape N T` writes the generated capture
/// file. These two read no source.
///
/// | Answer | When |
/// |---|---|
/// | `Ok` | the whole text was written |
/// | `Usage` | a word doesn't fit, is missing or is one too many: the first one; nothing was touched |
/// | `BadTape`, `TapeFull`, `UnitTooLarge`, `AudioLength` | the run ends at this fault of the capture file |
/// | `BadSchedule` | the run ends at this line, which can't be run |
/// | `TapeFault`, `ScheduleFault`, `WriteFault` | a call of that object failed |
/// | `OutOfMemory` | an allocation was refused |
pub fn trial_main<S: Source, T: Source, K: Sink>(
    alloc: Global,
    words: &[String],
    tape: &mut S,
    schedule: &mut T,
    out: &mut K,
) -> TrialStatus
    // What the words are, and what is written and answered. A run's text shows neither the timestamp of a datagram nor
    // the frame rate of the settings: that each session's host sent the datagrams of its history, each byte of them, is
    // said by the run itself, and what holds of every run beside it.
    ensures usage { (word : ℕ) → (result ≡ TrialStatus.Usage word)
        ↔ (first_misfit (map string_bytes words.now) ≡ Some word) }
    ensures runs { (command : TrialCommand) → command_of (map string_bytes words.now) ≡ Some command → Answers command
        (S.left tape.old) (T.left schedule.old) (K.written out.old) (K.written out.new) result }

    // Which sources are read, and how far.
    ensures whole { (detail : spec.Detail) → command_of (map string_bytes words.now) ≡ Some (TrialCommand.Script detail)
        → result ≡ TrialStatus.Ok → SetsFlag (S.met_end tape.old) (S.met_end tape.new) × IsAtEnd (S.left tape.new)
        × SetsFlag (T.met_end schedule.old) (T.met_end schedule.new) × IsAtEnd (T.left schedule.new) }
    ensures generated_reads_nothing { (command : TrialCommand) → command_of (map string_bytes words.now) ≡ Some command
        → IsGenerating command → (tape.new ≡ tape.old) × (schedule.new ≡ schedule.old) }
    ensures usage_changes_nothing { IsSome (first_misfit (map string_bytes words.now))
        → (tape.new ≡ tape.old) × (schedule.new ≡ schedule.old) × (out.new ≡ out.old) }

    // Where a read failed: which lines were run before, of which exactly the text was written, and what was read of the
    // source. Where the head has a fault no line is read.
    ensures stops { (detail : spec.Detail) → command_of (map string_bytes words.now) ≡ Some (TrialCommand.Script detail)
        → StopsIfTold detail (S.left tape.old) (T.left schedule.old) (S.left tape.new) (T.left schedule.new)
        (K.written out.old) (K.written out.new) result }
    ensures headless { (HasHead (S.left tape.old) → ⊥) → (detail : spec.Detail)
        → command_of (map string_bytes words.now) ≡ Some (TrialCommand.Script detail)
        → (schedule.new ≡ schedule.old) × (out.new ≡ out.old) }

    // A run that ends well is answered so where no object failed and memory sufficed.
    ensures complete { (detail : spec.Detail)
        → command_of (map string_bytes words.now) ≡ Some (TrialCommand.Script detail)
        → (Rose (S.faults tape.old) (S.faults tape.new) → ⊥)
        → (Rose (T.faults schedule.old) (T.faults schedule.new) → ⊥)
        → (Rose (K.faults out.old) (K.faults out.new) → ⊥)
        → CompletesIfTold (S.left tape.old) (T.left schedule.old) result }
    ensures complete_generated { (command : TrialCommand) → command_of (map string_bytes words.now) ≡ Some command
        → (Rose (K.faults out.old) (K.faults out.new) → ⊥) → CompletesGenerated command result }

    // The causes of its answers; the schedule is read behind the capture file's head.
    ensures tape_fault { result ≡ TrialStatus.TapeFault → Rose (S.faults tape.old) (S.faults tape.new) }
    ensures schedule_fault { result ≡ TrialStatus.ScheduleFault → Rose (T.faults schedule.old) (T.faults schedule.new) }
    ensures head_first { result ≡ TrialStatus.ScheduleFault → HasHead (S.left tape.old) }
    ensures write_fault { result ≡ TrialStatus.WriteFault → Rose (K.faults out.old) (K.faults out.new) }
    ensures tape_counted { S.faults tape.new ≢ S.faults tape.old → result ≡ TrialStatus.TapeFault }
    ensures schedule_counted { T.faults schedule.new ≢ T.faults schedule.old → result ≡ TrialStatus.ScheduleFault }
    ensures write_counted { K.faults out.new ≢ K.faults out.old → result ≡ TrialStatus.WriteFault }
{
    match read_command(words) {
        Err(word) => TrialStatus::Usage { word },
        Ok(TrialCommand::Script(detail)) => {
            status_of(run_script(alloc, detail, tape, schedule, out))
        }
        Ok(TrialCommand::Make(generated)) => status_of(make(alloc, generated, out)),
        Ok(TrialCommand::Tape(generated)) => status_of(write_tape(alloc, generated, out)),
    }
}

// The answer of a trial that ended so.
fn status_of(ended: Result<(), TrialStatus>) -> TrialStatus
    ensures { result ≡ status_answer ended }
{
    match ended {
        Ok(()) => TrialStatus::Ok,
        Err(status) => status,
    }
}
