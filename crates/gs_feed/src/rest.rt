// The rest of a capture file.

ghost use Rattle.std.specs.Prelude.{ℕ, ◌≡◌, ◌≢◌, ◌≤◌, List, IsErrOf, OnOk};
ghost use Rattle.std.specs.Io.KnownBytes.{IsAtEnd, Keeps};
ghost use Rattle.gs_bytes.specs.Outside.{Rose, SetsFlag};
ghost use Rattle.gs_tape.specs.Tape.{unread_tape};
ghost use Rattle.gs_tape.specs.declared.stage.Stage.TheVariants.{Open};
ghost use Rattle.gs_feed.specs.Cuts.{HasTaken, StopsInRest};
ghost use Rattle.gs_feed.specs.Feeding.{ReadEndsWith, stage_behind_rest};

use gs_bytes::Source;
use gs_tape::{Tape, TapeError};

// Reads the rest of a file and keeps none of it.
pub fn read_rest<S: Source>(tape: &mut Tape, source: &mut S) -> Result<(), TapeError>
    ensures ends { ReadEndsWith (unread_tape tape.old (S.left source.old)) result }
    ensures bytes { (bytes : List ℕ) (count : ℕ) → tape.old.stage ≡ Open
        → HasTaken bytes tape.old count (S.left source.old)
        → IsErrOf result TapeError.TapeFault → StopsInRest bytes (S.left source.new) count }
    ensures done { tape.new.stage ≢ Open }
    ensures stage { tape.new.stage ≡ stage_behind_rest result }
    ensures kept { (tape.new.audio ≡ tape.old.audio) × (tape.new.duration ≡ tape.old.duration) }
    ensures again { tape.old.stage ≢ Open → (tape.new ≡ tape.old) × (source.new ≡ source.old) }
    ensures end { tape.old.stage ≡ Open → OnOk result (IsAtEnd (S.left source.new)) }
    ensures met_end { tape.old.stage ≡ Open → OnOk result (SetsFlag (S.met_end source.old) (S.met_end source.new)) }
    ensures written { Keeps (S.written source.old) (S.written source.new) }
    ensures never_falls { S.faults source.old ≤ S.faults source.new }
    ensures fault { tape.old.stage ≡ Open → IsErrOf result TapeError.TapeFault
        → Rose (S.faults source.old) (S.faults source.new) }
    ensures counted { S.faults source.new ≢ S.faults source.old → result ≡ Err TapeError.TapeFault }
{
    'ticks: while tape.next(source)?.is_some() {}
    Ok(())
}
