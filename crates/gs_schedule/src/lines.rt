//! The lines of a source.

ghost use Rattle.std.specs.Prelude.{◌≡◌, ◌≢◌, ◌≤◌, ◌<◌, ◌+◌, ◌-◌, ◌^◌, ◌==◌, ◌||◌, ◌∷◌, ℕ, Err, IfErr, IfNone, IfOk};
ghost use Rattle.std.specs.Prelude.{IfSome, IsErrOf, MatchOption, OnErr, OnOk, drop, length, nat_lt, take, true};
ghost use Rattle.std.specs.Io.KnownBytes.{IsAtEnd, Keeps, prepend_known};
ghost use Rattle.gs_bytes.specs.Outside.{Rose, SetsFlag};
ghost use Rattle.gs_schedule.specs.Lines.{AnswersLine, IsFront, IsUnbroken, LosesLine, TellsFlag, holds_line, lines_of};
ghost use Rattle.gs_schedule.specs.Lines.{most_line, newline, next_line, lines_to_come};

use crate::held::Held;
use crate::limits::MOST_LINE;
use crate::line::Line;
use crate::lines_error::LinesError;
use gs_bytes::{Failed, Source, Text};
use std::alloc::Global;
use std::marker::Model;

/// The place of the first newline.
fn newline_in(bytes: &[u8]) -> Option<usize>
    ensures found { IfSome result (λ at. IsUnbroken (take at bytes.now)
        × (drop at bytes.now ≡ newline ∷ drop (at + 1) bytes.now)) }
    ensures within { IfSome result (λ at. at < length bytes.now) }
    ensures none { IfNone result (IsUnbroken bytes.now) }
{
    bytes.iter().position(|byte| *byte == b'\n')
}

/// Whether a line of so many bytes and of this number is refused.
fn is_refused(length: usize, number: u32) -> bool
    ensures { result ≡ (nat_lt most_line length || number == 2 ^ 32 - 1) }
{
    length > MOST_LINE || number == u32::MAX
}

/// Reads on until the first line that is to come is held, or so much of it that it is too long, and
/// answers how many bytes that is. None comes exactly at the end.
fn reach_line<S: Source>(held: &mut Held, source: &mut S) -> Result<Option<usize>, Failed>
    ensures to_come { Keeps (prepend_known held.old (S.left source.old)) (prepend_known held.new (S.left source.new)) }
    ensures front { IfOk result (λ found. IfSome found (λ count. IsFront held.new (S.left source.new) count)) }
    ensures none { IfOk result (λ found. IfNone found (length held.new ≡ 0)) }
    ensures end { IfOk result (λ found. IfNone found (IsAtEnd (S.left source.new))) }
    ensures met_end { IfOk result (λ found. IfNone found (SetsFlag (S.met_end source.old) (S.met_end source.new))) }
    ensures tells { TellsFlag (S.met_end source.old) (S.met_end source.new) }
    ensures held { holds_line held.old ≡ true → source.new ≡ source.old }
    ensures some { holds_line held.old ≡ true → IfOk result (λ found. IfNone found ⊥) }
    ensures unheld { OnErr result (holds_line held.old ≡ true → ⊥) }
    ensures still_unheld { OnErr result (holds_line held.new ≡ true → ⊥) }
    ensures written { Keeps (S.written source.old) (S.written source.new) }
    ensures never_falls { S.faults source.old ≤ S.faults source.new }
    ensures fault { IsErrOf result Failed.Fault → Rose (S.faults source.old) (S.faults source.new) }
    ensures none_counted { OnOk result (S.faults source.new ≡ S.faults source.old) }
    ensures counted { S.faults source.new ≢ S.faults source.old → result ≡ Err Failed.Fault }
{
    'fills: loop {
        let length = held.bytes().len();
        if let Some(count) = newline_in(held.bytes()) {
            return Ok(Some(count));
        }
        if length > MOST_LINE {
            return Ok(Some(length));
        }
        if !held.fill(source)? {
            return Ok((length > 0).then_some(length));
        }
    }
}

/// The lines of a source, in order. A line ends with a newline, which the last may lack.
#[derive(Debug, Drop)]
pub struct Lines {
    alloc: Global,
    given: u32,
    held: Held,
}

impl Model for Lines {
    ghost use Rattle.std.specs.Prelude.{◌<◌, ◌-◌, ◌^◌};
    ghost use Rattle.gs_schedule.specs.Lines.{LinesState};

    ghost Value = { LinesState };

    ghost view = { λ lines. record { given = lines.given; held = lines.held } };

    ghost invariant = { λ lines. lines.given < 2 ^ 32 - 1 };
}

impl Lines {
    ghost use Rattle.std.specs.Prelude.{[]};

    /// None is given yet, and nothing is read.
    pub fn new(alloc: Global) -> Lines
        ensures { result ≡ record { given = 0; held = [] } }
    {
        Lines {
            alloc,
            given: 0,
            held: Held::new(alloc),
        }
    }

    /// Whether the next line is already held whole, or so much of it that it is refused: the next
    /// call of `next` then reads nothing.
    pub fn holds_line(&self) -> bool
        ensures { result ≡ holds_line self.now.held }
    {
        let held = self.held.bytes();
        held.len() > MOST_LINE || held.contains(&b'\n')
    }

    /// The next line of the source, which is that of all earlier calls, or None at its end. A line of
    /// more than 64 bytes is refused, and so is line 4,294,967,295; both are refused again by the
    /// next call. After any error no byte is lost.
    pub fn next<S: Source>(&mut self, source: &mut S) -> Result<Option<Line>, LinesError>
        // The first of the lines that are to come is given.
        ensures given { IfSome (lines_to_come self.old (S.left source.old)) (λ bytes.
            AnswersLine result (next_line self.old.given (lines_of bytes))) }
        ensures number { IfOk result (λ found. IfSome found (λ line. line.number ≡ self.old.given + 1)) }
        ensures most { IfOk result (λ found. IfSome found (λ line. length line.bytes ≤ most_line)) }
        ensures refused { (line : ℕ) → result ≡ Err (LinesError.TooLong line) → line ≡ self.old.given + 1 }

        // The others are still to come, and all of them after None and after an error.
        ensures others { IfOk result (λ found. IfSome found (λ line.
            LosesLine (lines_to_come self.old (S.left source.old))
            (lines_to_come self.new (S.left source.new)) line.bytes)) }
        ensures counts { IfOk result (λ found.
            MatchOption found (self.new.given ≡ self.old.given) (λ line. self.new.given ≡ line.number)) }
        ensures end { IfOk result (λ found. IfNone found (IsAtEnd (lines_to_come self.new (S.left source.new)))) }
        ensures met_end { IfOk result (λ found. IfNone found (SetsFlag (S.met_end source.old) (S.met_end source.new))) }
        ensures tells { TellsFlag (S.met_end source.old) (S.met_end source.new) }
        ensures err { OnErr result (Keeps (lines_to_come self.old (S.left source.old))
            (lines_to_come self.new (S.left source.new))) }
        ensures err_given { OnErr result (self.new.given ≡ self.old.given) }

        // Where it is held nothing is read, and it isn't the end; where a read fails it isn't held before and behind
        // the call.
        ensures held { holds_line self.old.held ≡ true → source.new ≡ source.old }
        ensures some { holds_line self.old.held ≡ true → IfOk result (λ found. IfNone found ⊥) }
        ensures unheld { IsErrOf result LinesError.ReadFault → holds_line self.old.held ≡ true → ⊥ }
        ensures still_unheld { IsErrOf result LinesError.ReadFault → holds_line self.new.held ≡ true → ⊥ }

        ensures fault { IsErrOf result LinesError.ReadFault → Rose (S.faults source.old) (S.faults source.new) }
        ensures counted { S.faults source.new ≢ S.faults source.old → result ≡ Err LinesError.ReadFault }
        ensures never_falls { S.faults source.old ≤ S.faults source.new }
        ensures written { Keeps (S.written source.old) (S.written source.new) }
    {
        let Some(length) = reach_line(&mut self.held, source)? else {
            return Ok(None);
        };
        let number = self.given + 1;
        if is_refused(length, number) {
            return Err(LinesError::TooLong { line: number });
        }
        let bytes = Text::copy_of(self.alloc, &self.held.bytes()[..length])?;
        let used = self.held.bytes().len().min(length + 1);
        self.held.skip(used);
        self.given = number;
        Ok(Some(Line { number, bytes }))
    }
}

#[cfg(test)]
mod tests {
    use super::{Held, Lines, LinesError};
    use gs_bytes::SureSource;
    use std::test::Fail;

    #[test]
    fn the_last_number_is_refused(rt: HostRuntime) -> Result<(), Fail> {
        let mut source = SureSource::new(rt.alloc(), b"cap\ncap\n")?;
        let mut lines = Lines {
            alloc: rt.alloc(),
            given: 4_294_967_293,
            held: Held::new(rt.alloc()),
        };
        let line = lines.next(&mut source)?.ok_or("a line")?;
        assert_eq!(rt; line.number, 4_294_967_294);
        let refused = LinesError::TooLong {
            line: 4_294_967_295,
        };
        assert_eq!(rt; lines.next(&mut source).err(), Some(refused));
        Ok(())
    }
}
