//! The trial program: `gstrial script bytes|brief TAPE SCHEDULE`, `gstrial make N T`, `gstrial tape N T`.
//!
//! It runs a host and its client for each session over the losses that a schedule gives, streams the units of a capture
//! file, and writes on standard output what they did. A run that ends otherwise than `ok` says why on standard error,
//! one line, and with its exit status. What the text is, and when each answer comes, is the contract of
//! `gs_trial::trial_main`; this crate only judges the words, opens the files and prints.
#![tactic(auto)]

ghost use Rattle.std.specs.declared.io.ErrorKind.TheVariants as kinds;
ghost use Rattle.std.specs.Prelude.{◌≡◌, ◌≢◌, ◌⊎◌, ◌↔◌, ℕ, Err, Some, IfErr, IfOk, drop, map, string_bytes};
ghost use Rattle.gs_command.specs.Words.{first_misfit};
ghost use Rattle.gstrial.specs.Program.{
  schedule_name as schedule_named,
  schedule_of,
  tape_name as tape_named,
  tape_of,
  word_at as word_of,
};

use gs_net::{FileSource, OutSink};
use gs_trial::{TrialCommand, TrialStatus, read_command, trial_main};
use std::process::ExitCode;
use std::{env, io};

/// The places of the names of the two files among the words.
const TAPE_PLACE: usize = 2;

const SCHEDULE_PLACE: usize = 3;

/// The name of the files of what is generated, which reads none.
const NO_FILE: &str = "";

/// The word at a place, empty where there is none.
fn word_at(words: &[String], place: usize) -> &str
    ensures { result.now ≡ word_of (map string_bytes words.now) place }
{
    match words.get(place) {
        Some(word) => word.as_str(),
        None => "",
    }
}

/// The name of the capture file.
fn tape_name(words: &[String]) -> &str
    ensures { result.now ≡ tape_named (map string_bytes words.now) }
{
    word_at(words, TAPE_PLACE)
}

/// The name of the schedule.
fn schedule_name(words: &[String]) -> &str
    ensures { result.now ≡ schedule_named (map string_bytes words.now) }
{
    word_at(words, SCHEDULE_PLACE)
}

/// The words of the command among the program's arguments, of which the first is its own name.
fn behind_name(arguments: Vec<String>) -> Vec<String>
    ensures { result.items ≡ drop 1 arguments.items }
{
    let mut words = arguments;
    if !words.is_empty() {
        let _name = words.remove(0);
    }
    words
}

/// The answer where the system gives no words: memory was wanting, or one of them isn't text. Such
/// a word doesn't fit at its place, and since the system gives all words or none, the first is
/// named.
fn refused(kind: io::ErrorKind) -> TrialStatus
    ensures memory { kind ≡ kinds.OutOfMemory → result ≡ TrialStatus.OutOfMemory }
    ensures usage { kind ≢ kinds.OutOfMemory → result ≡ TrialStatus.Usage 1 }
{
    if kind == io::ErrorKind::OutOfMemory {
        TrialStatus::OutOfMemory
    } else {
        TrialStatus::Usage { word: 1 }
    }
}

/// The words of the command, which are the arguments that the system gives behind the program's
/// name. Where it gives none for want of memory, or they can't be kept, the answer is
/// `OutOfMemory`; where one isn't text, `Usage` of the first.
fn command_words(rt: &HostRuntime) -> Result<Vec<String>, TrialStatus>
    ensures { IfErr result (λ status. (status ≡ TrialStatus.Usage 1) ⊎ (status ≡ TrialStatus.OutOfMemory)) }
{
    let arguments = match env::args(rt) {
        Ok(arguments) => arguments,
        Err(error) => return Err(refused(error.kind())),
    };
    match arguments.collect::<Vec<String>>(rt.alloc()) {
        Ok(arguments) => Ok(behind_name(arguments)),
        Err(_) => Err(TrialStatus::OutOfMemory),
    }
}

/// The names of the capture file and of the schedule, empty where the command reads none. Words that
/// don't fit are judged before any file is opened: the first of them is named.
fn files_of(words: &[String]) -> Result<(&str, &str), u32>
    ensures tape { IfOk result (λ names. names.0.now ≡ tape_of (map string_bytes words.now)) }
    ensures schedule { IfOk result (λ names. names.1.now ≡ schedule_of (map string_bytes words.now)) }
    ensures misfit { (word : ℕ) → (result ≡ Err word) ↔ (first_misfit (map string_bytes words.now) ≡ Some word) }
{
    Ok(match read_command(words)? {
        TrialCommand::Script(_) => (tape_name(words), schedule_name(words)),
        TrialCommand::Make(_) | TrialCommand::Tape(_) => (NO_FILE, NO_FILE),
    })
}

// The answer is that of `trial_main` for the two files and standard output: what a file holds, and whether a call of
// the system fails, no contract can say.
fn main(rt: HostRuntime) -> ExitCode {
    let status = match command_words(&rt) {
        Ok(words) => match files_of(&words) {
            Ok((tape, schedule)) => {
                let mut tape = FileSource::open(&rt, tape);
                let mut schedule = FileSource::open(&rt, schedule);
                let mut out = OutSink::new(rt.stdout());
                trial_main(rt.alloc(), &words, &mut tape, &mut schedule, &mut out)
            }
            Err(word) => TrialStatus::Usage { word },
        },
        Err(status) => status,
    };
    if status != TrialStatus::Ok {
        // Where standard error is closed too, the exit status alone is left to tell.
        let _ = eprintln!(rt; "{status}");
    }
    ExitCode::from(status.code())
}
