use crate::{FileSource, OutSink};
use gs_bytes::{Failed, Sink, Source};
use std::{fs, io};

// A test runs in a folder of its own.
#[test]
fn reads_a_file_to_its_end(rt: HostRuntime) -> io::Result<()> {
    fs::write(&rt, "three_bytes", "ABC")?;
    let mut source = FileSource::open(&rt, "three_bytes");
    let mut into = [0; 8];
    assert_eq!(rt; source.read(&mut into), Ok(3));
    assert_eq!(rt; into[..3], b"ABC"[..]);
    assert_eq!(rt; source.read(&mut into), Ok(0));
    assert_eq!(rt; source.faults(), 0);
    Ok(())
}

#[test]
fn counts_each_read_of_no_file(rt: HostRuntime) {
    // No file, a directory, no path, and a path with a NUL.
    for path in ["missing", ".", "", "a\0b"] {
        let mut source = FileSource::open(&rt, path);
        let mut into = [0; 8];
        for faults in 1..=2 {
            assert_eq!(rt;
                source.read(&mut into),
                Err(Failed::Fault),
                "reading {path:?}"
            );
            assert_eq!(rt; source.faults(), faults);
        }
    }
}

#[test]
fn writes_to_standard_output(rt: HostRuntime) {
    let mut sink = OutSink::new(rt.stdout());
    assert_eq!(rt; sink.write(b"a line\n"), Ok(7));
    assert_eq!(rt; sink.faults(), 0);
}

#[test]
fn counts_a_write_that_takes_nothing(rt: HostRuntime) {
    let mut room = [0; 2];
    let mut sink = OutSink::new(&mut room[..]);
    assert_eq!(rt; sink.write(b"ABC"), Ok(2));
    assert_eq!(rt; sink.faults(), 0);
    assert_eq!(rt; sink.write(b"C"), Err(Failed::Fault));
    assert_eq!(rt; sink.faults(), 1);
}
