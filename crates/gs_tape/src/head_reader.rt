// The head of a capture file, read from a source.

ghost use Rattle.std.specs.Prelude.{◌≡◌, ◌⊎◌, ◌+◌, ◌^◌, ◌<◌, ◌≤◌, ◌==◌, ◌||◌, not, IfOk, [], IsErrOf};
ghost use Rattle.gs_reader.specs.Buffered.{to_come};
ghost use Rattle.gs_tape.specs.Limits.{most_audio, short_duration, long_duration, IsDuration};
ghost use Rattle.gs_tape.specs.Steps.{audio_length, duration, head, head_length, last};
ghost use Rattle.gs_tape.specs.Streaming.{LeavesSource, ReadsStep};

use crate::cursor::Cursor;
use crate::error::TapeError;
use gs_bytes::{DURATION_LONG, DURATION_SHORT, MOST_AUDIO, Source};

// Whether an audio unit can't have this duration.
fn is_unknown(duration: u8) -> bool
    ensures { result ≡ not (duration == short_duration || duration == long_duration) }
{
    duration != DURATION_SHORT && duration != DURATION_LONG
}

impl Cursor {
    // The length of an audio unit.
    fn audio_length<S: Source>(&mut self, source: &mut S) -> Result<u16, TapeError>
        requires { self.old.place + 2 < 2 ^ 64 }
        ensures read { ReadsStep audio_length (to_come self.old.reader (S.left source.old))
            (to_come self.new.reader (S.left source.new)) self.old.place self.new.place result }
        ensures spent { IsErrOf result TapeError.TapeFault → self.new.reader ≡ [] }
        ensures place { self.new.place ≤ self.old.place + 2 }
        ensures most { IfOk result (λ length. length ≤ most_audio) }
        ensures source { LeavesSource (S.faults source.old) (S.faults source.new) (S.met_end source.old)
            (S.met_end source.new) (S.written source.old) (S.written source.new) result }
    {
        let length = self.u16(source)?;
        if length > MOST_AUDIO {
            return Err(TapeError::AudioLength { length });
        }
        Ok(length)
    }

    // The duration of an audio unit.
    fn duration<S: Source>(&mut self, source: &mut S) -> Result<u8, TapeError>
        requires { self.old.place + 1 < 2 ^ 64 }
        ensures read { ReadsStep duration (to_come self.old.reader (S.left source.old))
            (to_come self.new.reader (S.left source.new)) self.old.place self.new.place result }
        ensures spent { IsErrOf result TapeError.TapeFault → self.new.reader ≡ [] }
        ensures place { self.new.place ≤ self.old.place + 1 }
        ensures known { IfOk result (λ duration. IsDuration duration) }
        ensures source { LeavesSource (S.faults source.old) (S.faults source.new) (S.met_end source.old)
            (S.met_end source.new) (S.written source.old) (S.written source.new) result }
    {
        let place = self.place;
        let duration = self.u8(source)?;
        if is_unknown(duration) {
            return Err(TapeError::BadTape { kind: 1, place });
        }
        Ok(duration)
    }

    // The zero that ends the head.
    fn last<S: Source>(&mut self, source: &mut S) -> Result<u8, TapeError>
        requires { self.old.place + 1 < 2 ^ 64 }
        ensures read { ReadsStep last (to_come self.old.reader (S.left source.old))
            (to_come self.new.reader (S.left source.new)) self.old.place self.new.place result }
        ensures spent { IsErrOf result TapeError.TapeFault → self.new.reader ≡ [] }
        ensures place { self.new.place ≤ self.old.place + 1 }
        ensures source { LeavesSource (S.faults source.old) (S.faults source.new) (S.met_end source.old)
            (S.met_end source.new) (S.written source.old) (S.written source.new) result }
    {
        let place = self.place;
        let last = self.u8(source)?;
        if last != 0 {
            return Err(TapeError::BadTape { kind: 1, place });
        }
        Ok(last)
    }

    // The head: the length and the duration of an audio unit.
    pub fn head<S: Source>(&mut self, source: &mut S) -> Result<(u16, u8), TapeError>
        requires { self.old.place + head_length < 2 ^ 64 }
        ensures read { ReadsStep head (to_come self.old.reader (S.left source.old))
            (to_come self.new.reader (S.left source.new)) self.old.place self.new.place result }
        ensures spent { IsErrOf result TapeError.TapeFault → self.new.reader ≡ [] }
        ensures place { self.new.place ≤ self.old.place + head_length }
        ensures most { IfOk result (λ h. h.0 ≤ most_audio) }
        ensures known { IfOk result (λ h. (h.1 ≡ 5) ⊎ (h.1 ≡ 10)) }
        ensures source { LeavesSource (S.faults source.old) (S.faults source.new) (S.met_end source.old)
            (S.met_end source.new) (S.written source.old) (S.written source.new) result }
    {
        self.text(source, b"GSTAPE01")?;
        let audio = self.audio_length(source)?;
        let duration = self.duration(source)?;
        let _zero = self.last(source)?;
        Ok((audio, duration))
    }
}
