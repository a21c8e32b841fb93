//! Reading the words.

ghost use Rattle.std.specs.Prelude.{◌≡◌, [], ◌∷◌, map, string_bytes};
ghost use Rattle.gs_command.specs.Words.{ReadsCommand, ReadsFrom, FitsFrom, number_in_word, detail_of, is_name};
ghost use Rattle.gs_command.specs.Words.{script_places};
ghost use Rattle.gs_command.specs.Words.{script_of, generated_places, generated_of, ticks_places, ticks_in_words};

use crate::command::{Detail, Generated, TrialCommand};
use crate::limits::MOST_NUMBER;
use gs_bytes::{MOST_GENERATED, parse_number};

// A number from 1 up to another.
fn number_in(word: &[u8], most: u32) -> Option<u32>
    ensures { result ≡ number_in_word most word.now }
{
    let number = parse_number(word, most)?;
    if number == 0 {
        return None;
    }
    Some(number)
}

fn detail_in(word: &[u8]) -> Option<Detail>
    ensures { result ≡ detail_of word.now }
{
    if word == b"bytes".as_slice() {
        Some(Detail::Bytes)
    } else if word == b"brief".as_slice() {
        Some(Detail::Brief)
    } else {
        None
    }
}

// The words behind `script`, from the second on.
fn read_script(words: &[String]) -> Result<Detail, u32>
    ensures { ReadsFrom 2 script_places (map string_bytes words.now) (script_of (map string_bytes words.now)) result }
{
    match words {
        [] => Err(2),
        [detail, rest @ ..] => {
            let Some(detail) = detail_in(detail.as_bytes()) else {
                return Err(2);
            };
            read_names(rest)?;
            Ok(detail)
        }
    }
}

// The names of both files, from the third word on.
fn read_names(words: &[String]) -> Result<(), u32>
    ensures { FitsFrom 3 (is_name ∷ is_name ∷ []) (map string_bytes words.now) result }
{
    match words {
        [] => Err(3),
        [tape, rest @ ..] => {
            if tape.is_empty() {
                return Err(3);
            }
            read_last_name(rest)
        }
    }
}

// The name of the schedule.
fn read_last_name(words: &[String]) -> Result<(), u32>
    ensures { FitsFrom 4 (is_name ∷ []) (map string_bytes words.now) result }
{
    match words {
        [] => Err(4),
        [schedule, rest @ ..] => {
            if schedule.is_empty() {
                return Err(4);
            }
            if rest.is_empty() { Ok(()) } else { Err(5) }
        }
    }
}

// The number and the ticks of a generated capture, from the second word on.
fn read_numbers(words: &[String]) -> Result<Generated, u32>
    ensures { ReadsFrom 2 generated_places (map string_bytes words.now)
        (generated_of (map string_bytes words.now)) result }
{
    match words {
        [] => Err(2),
        [number, rest @ ..] => {
            let Some(number) = number_in(number.as_bytes(), MOST_NUMBER) else {
                return Err(2);
            };
            let ticks = read_ticks(rest)?;
            Ok(Generated { number, ticks })
        }
    }
}

// How many ticks, from the third word on.
fn read_ticks(words: &[String]) -> Result<u32, u32>
    ensures { ReadsFrom 3 ticks_places (map string_bytes words.now)
        (ticks_in_words (map string_bytes words.now)) result }
{
    match words {
        [] => Err(3),
        [ticks, rest @ ..] => {
            let Some(ticks) = number_in(ticks.as_bytes(), MOST_GENERATED) else {
                return Err(3);
            };
            if rest.is_empty() { Ok(ticks) } else { Err(4) }
        }
    }
}

/// The command that the words are, or the number, from 1, of the first word that doesn't fit or is missing.
pub fn read_command(words: &[String]) -> Result<TrialCommand, u32>
    ensures { ReadsCommand (map string_bytes words.now) result }
{
    let [first, rest @ ..] = words else {
        return Err(1);
    };
    if first.as_bytes() == b"script".as_slice() {
        Ok(TrialCommand::Script(read_script(rest)?))
    } else if first.as_bytes() == b"make".as_slice() {
        Ok(TrialCommand::Make(read_numbers(rest)?))
    } else if first.as_bytes() == b"tape".as_slice() {
        Ok(TrialCommand::Tape(read_numbers(rest)?))
    } else {
        Err(1)
    }
}
