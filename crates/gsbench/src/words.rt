// The words of a command as numbers.
ghost use Rattle.std.specs.Prelude.{◌≡◌, ◌+◌, ◌<◌, ◌≤◌, IfOk, MatchResult, None, Some, length};
ghost use Rattle.gsbench.specs.declared.report.Stop.TheVariants.{Usage};
ghost use Rattle.gsbench.specs.Words.{number_word};

use crate::report::Stop;
use gs_bytes::parse_number;

/// The word at a place, from 0, which is a number between two limits, in decimal without a sign or a leading zero.
pub fn number_at(words: &[String], place: usize, least: u32, most: u32) -> Result<u32, Stop>
    requires { place < 8 }
    ensures number { IfOk result (λ n. (least ≤ n) × (n ≤ most)) }
    ensures exact { MatchResult result (λ n. number_word words.now place least most ≡ Some n)
        (λ stop. (stop ≡ Usage (place + 1)) × (number_word words.now place least most ≡ None)) }
{
    match words
        .get(place)
        .and_then(|word| parse_number(word.as_bytes(), most))
    {
        Some(number) if least <= number => Ok(number),
        _ => Err(Stop::Usage { word: place + 1 }),
    }
}

/// That there are no more words than so many.
pub fn expect_end(words: &[String], count: usize) -> Result<(), Stop>
    requires { count < 8 }
    ensures { MatchResult result (λ _. length words.now ≤ count)
        (λ stop. (stop ≡ Usage (count + 1)) × (count < length words.now)) }
{
    if words.len() > count {
        return Err(Stop::Usage { word: count + 1 });
    }
    Ok(())
}
