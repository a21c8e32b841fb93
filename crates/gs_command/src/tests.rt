use super::*;
use std::alloc::Global;
use std::test::*;

// The command of these words, which are parted by spaces.
fn command_of(alloc: Global, line: &str) -> Result<Result<TrialCommand, u32>, Fail> {
    let mut words = Vec::new(alloc);
    for word in line.split(' ') {
        words.push(String::from_str(alloc, word)?)?;
    }
    Ok(read_command(&words))
}

#[test]
fn a_command_is_read(rt: HostRuntime) -> Result<(), Fail> {
    let alloc = rt.alloc();
    let script = command_of(alloc, "script brief tape schedule")?;
    assert!(rt; script == Ok(TrialCommand::Script(Detail::Brief)));
    let make = Generated {
        number: 7,
        ticks: 600,
    };
    assert!(rt; command_of(alloc, "make 7 600")? == Ok(TrialCommand::Make(make)));
    let most = Generated {
        number: 4_294_967_295,
        ticks: 2000,
    };
    assert!(rt; command_of(alloc, "tape 4294967295 2000")? == Ok(TrialCommand::Tape(most)));
    Ok(())
}

#[test]
fn a_word_that_does_not_fit_is_named(rt: HostRuntime) -> Result<(), Fail> {
    const ROWS: [(&str, u32); 12] = [
        ("", 1),
        ("threads 1 0 tape", 1),
        ("script", 2),
        ("script all tape schedule", 2),
        ("script bytes  schedule", 3),
        ("script bytes tape ", 4),
        ("script bytes tape schedule more", 5),
        ("make 0 600", 2),
        ("make 07 600", 2),
        ("make 4294967296 600", 2),
        ("tape 7 2001", 3),
        ("tape 7", 3),
    ];
    for (line, word) in ROWS {
        assert!(rt; command_of(rt.alloc(), line)?.err() == Some(word));
    }
    Ok(())
}
