//! Bytes of every kind with their answers, and the values and texts of a few messages.

ghost use Rattle.std.specs.Prelude.{◌≡◌, [], ◌∷◌, codes, IfOk};

use super::*;
use gs_bytes::{OutOfMemory, Text};
use std::alloc::Global;
use std::test::Fail;

const OPTIONS: &[u8] =
    b"OPTIONS rtsp://127.0.0.1:48010 RTSP/1.0\r\nCSeq: 1\r\nX-GS-ClientVersion: 14\r\n\r\n";

const ANNOUNCE: &[u8] = b"ANNOUNCE x RTSP/1.0\r\nCSeq: 6\r\nContent-length: 3\r\n\r\na=b";

/// An answer without its value.
#[derive(Clone, Copy, Debug, PartialEq, Eq)]
enum Seen {
    Whole(usize),
    BadText(usize),
    More,
    OutOfMemory,
}

fn outcome_of<T: Drop>(answer: Result<Read<T>, TextError>) -> Seen {
    match answer {
        Ok(Read::Whole { value: _, used }) => Seen::Whole(used),
        Ok(Read::More) => Seen::More,
        Err(TextError::BadText(place)) => Seen::BadText(place),
        Err(TextError::OutOfMemory) => Seen::OutOfMemory,
    }
}

#[test]
fn first_lines_of_requests(rt: HostRuntime) {
    for (text, want) in [
        (b"".as_slice(), Seen::More),
        (b"O".as_slice(), Seen::More),
        (
            b"PLAY x RTSP/1.0\r\nCSeq: 1\r\n\r\n".as_slice(),
            Seen::Whole(28),
        ),
        (
            b"OPTIONS rtsp://127.0.0.1:48010 RTSP/1.0\r\nCSeq: 1\r\nX-GS-ClientVersion: 14\r\n\r\n".as_slice(),
            Seen::Whole(76),
        ),
        (
            b"OPTIONS rtsp://127.0.0.1:48010 RTSP/1.0\r\nCSeq: 1\r\nX-GS-ClientVersion: 14\r\n\r\nPLAY".as_slice(),
            Seen::Whole(76),
        ),
        (b"X".as_slice(), Seen::BadText(0)),
        (b"options x".as_slice(), Seen::BadText(0)),
        (b"OPTX".as_slice(), Seen::BadText(3)),
        (b"PLAYx".as_slice(), Seen::BadText(4)),
        (b"PLAY  ".as_slice(), Seen::BadText(5)),
        (b"PLAY \x7f".as_slice(), Seen::BadText(5)),
        (b"PLAY x RTSP/1.1".as_slice(), Seen::BadText(14)),
        (b"PLAY x RTSP/1.0\n".as_slice(), Seen::BadText(15)),
        (b"PLAY x RTSP/1.0\r\r".as_slice(), Seen::BadText(16)),
    ] {
        assert_eq!(rt; outcome_of(read_request(rt.alloc(), text)), want);
    }
}

#[test]
fn header_lines_of_requests(rt: HostRuntime) {
    for (text, want) in [
        (b"PLAY x RTSP/1.0\r\n:".as_slice(), Seen::BadText(17)),
        (b"PLAY x RTSP/1.0\r\nA b".as_slice(), Seen::BadText(18)),
        (b"PLAY x RTSP/1.0\r\nA: \t".as_slice(), Seen::BadText(20)),
        (b"PLAY x RTSP/1.0\r\nA: b\n".as_slice(), Seen::BadText(21)),
        (b"PLAY x RTSP/1.0\r\nA: b\rA".as_slice(), Seen::BadText(22)),
        (b"PLAY x RTSP/1.0\r\nCSeq: x".as_slice(), Seen::BadText(23)),
        (
            b"PLAY x RTSP/1.0\r\nCSeq:\r\n".as_slice(),
            Seen::BadText(22),
        ),
        (b"PLAY x RTSP/1.0\r\nCSeq: 01".as_slice(), Seen::BadText(24)),
        (
            b"PLAY x RTSP/1.0\r\nCSeq: 2147483648".as_slice(),
            Seen::BadText(32),
        ),
        (
            b"PLAY x RTSP/1.0\r\nCSeq: 2147483647\r\n\r\n".as_slice(),
            Seen::Whole(37),
        ),
        (
            b"PLAY x RTSP/1.0\r\ncSEQ:7   \r\n\r\n".as_slice(),
            Seen::Whole(30),
        ),
        (
            b"PLAY x RTSP/1.0\r\nCSeq: 7 7".as_slice(),
            Seen::BadText(25),
        ),
        (b"PLAY x RTSP/1.0\r\nCSeq: -".as_slice(), Seen::BadText(23)),
    ] {
        assert_eq!(rt; outcome_of(read_request(rt.alloc(), text)), want);
    }
}

#[test]
fn heads_and_bodies_of_requests(rt: HostRuntime) {
    for (text, want) in [
        (
            b"PLAY x RTSP/1.0\r\nCSeq: 1\r\nCSeq: 1\r\n\r\n".as_slice(),
            Seen::BadText(35),
        ),
        (b"PLAY x RTSP/1.0\r\n\r\n".as_slice(), Seen::BadText(17)),
        (b"PLAY x RTSP/1.0\r\n\r".as_slice(), Seen::BadText(17)),
        (
            b"PLAY x RTSP/1.0\r\nA: b\r\n\r\n".as_slice(),
            Seen::BadText(23),
        ),
        (
            b"PLAY x RTSP/1.0\r\nCSeq: 1\r\nContent-length: 8193\r\n\r\n".as_slice(),
            Seen::BadText(48),
        ),
        (
            b"PLAY x RTSP/1.0\r\nCSeq: 1\r\nContent-length: 8192\r\n\r\n".as_slice(),
            Seen::More,
        ),
        (
            b"PLAY x RTSP/1.0\r\nCSeq: 1\r\nContent-length: x\r\n\r\n".as_slice(),
            Seen::BadText(45),
        ),
        (
            b"PLAY x RTSP/1.0\r\nCSeq: 1\r\nContent-length:\r\n\r\n".as_slice(),
            Seen::BadText(43),
        ),
        (
            b"PLAY x RTSP/1.0\r\nCSeq: 1\r\nContent-length: 03\r\n\r\n".as_slice(),
            Seen::BadText(46),
        ),
        (
            b"PLAY x RTSP/1.0\r\nCSeq: 1\r\nContent-length: 1\r\ncontent-LENGTH: 1\r\n\r\n".as_slice(),
            Seen::BadText(64),
        ),
        (
            b"PLAY x RTSP/1.0\r\nCSeq: 1\r\nContent-length: 3\r\n\r\nab".as_slice(),
            Seen::More,
        ),
        (
            b"PLAY x RTSP/1.0\r\nCSeq: 1\r\nCONTENT-LENGTH: 3\r\n\r\nabcdef".as_slice(),
            Seen::Whole(50),
        ),
        (
            b"PLAY x RTSP/1.0\r\nCSeq: 1\r\n\rA".as_slice(),
            Seen::BadText(27),
        ),
    ] {
        assert_eq!(rt; outcome_of(read_request(rt.alloc(), text)), want);
    }
}

#[test]
fn responses(rt: HostRuntime) {
    for (text, want) in [
        (b"RTSP/1.0 20".as_slice(), Seen::More),
        (
            b"RTSP/1.0 200 OK\r\nCSeq: 1\r\n\r\n".as_slice(),
            Seen::Whole(28),
        ),
        (b"RTSP/1.0 455 \r\n\r\nRTSP".as_slice(), Seen::Whole(17)),
        (
            b"RTSP/1.0 200 OK\r\nContent-length: 2\r\n\r\nab".as_slice(),
            Seen::Whole(40),
        ),
        (b"RTSP/1.1".as_slice(), Seen::BadText(7)),
        (b"RTSP/1.0 20x".as_slice(), Seen::BadText(11)),
        (b"RTSP/1.0 200\r".as_slice(), Seen::BadText(12)),
        (b"RTSP/1.0 200 O\x7f".as_slice(), Seen::BadText(14)),
        (
            b"RTSP/1.0 200 OK\r\nCSeq: 1\r\nCSeq: 1\r\n\r\n".as_slice(),
            Seen::BadText(35),
        ),
        (b"PLAY".as_slice(), Seen::BadText(0)),
        (
            b"RTSP/1.0 200 OK\r\nCSeq: 1\r\nContent-length: 9000\r\n\r\n".as_slice(),
            Seen::BadText(48),
        ),
    ] {
        assert_eq!(rt; outcome_of(read_response(rt.alloc(), text)), want);
    }
}

#[test]
fn requests_cut_short(rt: HostRuntime) {
    for text in [OPTIONS, ANNOUNCE] {
        for end in 0..text.len() {
            assert_eq!(rt;
                outcome_of(read_request(rt.alloc(), &text[..end])),
                Seen::More
            );
        }
        assert_eq!(rt;
            outcome_of(read_request(rt.alloc(), text)),
            Seen::Whole(text.len())
        );
    }
}

/// A head of a target and nothing else, or with a CSeq and the empty line at its end.
fn long_head(alloc: Global, target: usize, end: &[u8]) -> Result<Vec<u8>, OutOfMemory> {
    let mut text = Vec::from_slice(alloc, b"PLAY ")?;
    for _ in 0..target {
        text.push(b'x')?;
    }
    text.extend_from_slice(end)?;
    Ok(text)
}

#[test]
fn heads_of_4096_bytes(rt: HostRuntime) -> Result<(), Fail> {
    let end = b" RTSP/1.0\r\nCSeq: 1\r\n\r\n";
    let open = long_head(rt.alloc(), 4_091, b"")?;
    assert_eq!(rt; open.len(), 4_096);
    assert_eq!(rt;
        outcome_of(read_request(rt.alloc(), &open)),
        Seen::BadText(4_096)
    );
    let short = long_head(rt.alloc(), 4_090, b"")?;
    assert_eq!(rt; outcome_of(read_request(rt.alloc(), &short)), Seen::More);
    let whole = long_head(rt.alloc(), 4_069, end)?;
    assert_eq!(rt;
        outcome_of(read_request(rt.alloc(), &whole)),
        Seen::Whole(4_096)
    );
    let long = long_head(rt.alloc(), 4_070, end)?;
    assert_eq!(rt;
        outcome_of(read_request(rt.alloc(), &long)),
        Seen::BadText(4_096)
    );
    Ok(())
}

#[test]
fn request_values(rt: HostRuntime) -> Result<(), Fail> {
    match read_request(rt.alloc(), OPTIONS)? {
        Read::Whole { value, used } => {
            assert_eq!(rt; used, OPTIONS.len());
            assert_eq!(rt; value.method, Method::Options);
            assert_eq!(rt;
                value.target.as_bytes(),
                b"rtsp://127.0.0.1:48010".as_slice()
            );
            assert!(rt; value.body.is_empty());
            assert_eq!(rt; value.headers.value_of(b"cseq"), Some(b"1".as_slice()));
            assert_eq!(rt; value.headers.value_of(b"Session"), None);
            let headers = value.headers.as_slice();
            assert_eq!(rt; headers.len(), 2);
            assert_eq!(rt; headers[0].name.as_bytes(), b"CSeq".as_slice());
            assert_eq!(rt; headers[0].value.as_bytes(), b"1".as_slice());
            assert_eq!(rt;
                headers[1].name.as_bytes(),
                b"X-GS-ClientVersion".as_slice()
            );
            assert_eq!(rt; headers[1].value.as_bytes(), b"14".as_slice());
        }
        Read::More => panic!(rt; "the request is whole"),
    }
    Ok(())
}

#[test]
fn response_values(rt: HostRuntime) -> Result<(), Fail> {
    let text = b"RTSP/1.0 454 Session Not Found\r\nA:  b c  \r\nContent-length: 2\r\n\r\nok";
    match read_response(rt.alloc(), text)? {
        Read::Whole { value, used: _ } => {
            assert_eq!(rt; value.code, 454);
            assert_eq!(rt; value.body.as_bytes(), b"ok".as_slice());
            let headers = value.headers.into_vec();
            assert_eq!(rt; headers.len(), 2);
            assert_eq!(rt; headers[0].value.as_bytes(), b"b c".as_slice());
        }
        Read::More => panic!(rt; "the response is whole"),
    }
    Ok(())
}

/// A CSeq of 1.
fn one_header(alloc: Global) -> Result<Headers, OutOfMemory>
    ensures { IfOk result (λ headers. headers ≡ record { name = codes "CSeq"; value = codes "1" } ∷ []) }
{
    let name = Text::copy_of(alloc, b"CSeq")?;
    let value = Text::copy_of(alloc, b"1")?;
    let mut headers = Vec::new(alloc);
    headers.push(Header { name, value })?;
    Ok(Headers::from_vec(headers))
}

#[test]
fn written_messages(rt: HostRuntime) -> Result<(), Fail> {
    let request = Request {
        method: Method::Play,
        target: Text::copy_of(rt.alloc(), b"x")?,
        headers: one_header(rt.alloc())?,
        body: Text::from_vec(Vec::new(rt.alloc())),
    };
    let text = write_request(rt.alloc(), &request)?;
    assert_eq!(rt;
        text.as_bytes(),
        b"PLAY x RTSP/1.0\r\nCSeq: 1\r\n\r\n".as_slice()
    );
    let response = Response {
        code: 455,
        headers: one_header(rt.alloc())?,
        body: Text::from_vec(Vec::new(rt.alloc())),
    };
    let text = write_response(rt.alloc(), &response)?;
    let want = b"RTSP/1.0 455 Method Not Valid in This State\r\nCSeq: 1\r\n\r\n";
    assert_eq!(rt; text.as_bytes(), want.as_slice());
    Ok(())
}
