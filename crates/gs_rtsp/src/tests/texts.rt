// Responses and headers as texts.

use super::{BASE, answered, offer};
use crate::field::Field;
use crate::{Server, Stream};
use std::test::Fail;

#[test]
fn responses_as_texts(rt: HostRuntime) -> Result<(), Fail> {
    let mut server = Server::new(offer()?, BASE);
    for (text, want) in [
        (
            b"OPTIONS rtsp://127.0.0.1:48010 RTSP/1.0\r\nCSeq: 1\r\nX-GS-ClientVersion: 14\r\n\r\n".as_slice(),
            b"RTSP/1.0 200 OK\r\nCSeq: 1\r\n\r\n".as_slice(),
        ),
        (
            b"PLAY x RTSP/1.0\r\nCSeq: 2\r\n\r\n".as_slice(),
            b"RTSP/1.0 455 Method Not Valid in This State\r\nCSeq: 2\r\n\r\n".as_slice(),
        ),
        (
            b"DESCRIBE x RTSP/1.0\r\ncseq: 3\r\n\r\n".as_slice(),
            b"RTSP/1.0 200 OK\r\nCSeq: 3\r\nContent-length: 55\r\n\r\na=x-nv-aqos.packetDuration:5\r\n\
                a=x-gs-audio.length:240\r\n"
                .as_slice(),
        ),
        (
            b"SETUP a/streamid=video/streamid=audio RTSP/1.0\r\nCSeq: 4\r\n\r\n".as_slice(),
            b"RTSP/1.0 200 OK\r\nCSeq: 4\r\nSession: DEADBEEF0007;timeout = 90\r\nTransport: server_port=47998\r\n\
                X-SS-Ping-Payload: 0000000000000007\r\n\r\n"
                .as_slice(),
        ),
        (
            b"SETUP streamid=control/1/0 RTSP/1.0\r\nCSeq: 5\r\n\
                Session:  DEADBEEF0007 ;timeout = 90\r\n\r\n"
                .as_slice(),
            b"RTSP/1.0 200 OK\r\nCSeq: 5\r\nSession: DEADBEEF0007;timeout = 90\r\nTransport: server_port=47999\r\n\
                X-SS-Connect-Data: 7\r\n\r\n"
                .as_slice(),
        ),
    ] {
        let response = answered(&mut server, rt.alloc(), text)?;
        assert_eq!(rt; response.as_bytes(), want);
    }
    Ok(())
}

#[test]
fn numbers_of_headers(rt: HostRuntime) -> Result<(), Fail> {
    for (field, number, text) in [
        (Field::Session, 7, b"DEADBEEF0007".as_slice()),
        (Field::Port, 47_998, b"server_port=47998".as_slice()),
        (Field::PingPayload, 9_999, b"0000000000009999".as_slice()),
        (Field::ConnectData, 12, b"12".as_slice()),
    ] {
        let value = field.write(rt.alloc(), number)?;
        assert_eq!(rt; value.as_bytes(), text);
        assert_eq!(rt; field.read(text), Some(number));
    }
    assert_eq!(rt; Field::Session.read(b"DEADBEEF007"), None);
    assert_eq!(rt; Stream::Video.port(BASE), 47_998);
    assert_eq!(rt;
        Stream::Control.data_field().name(),
        b"X-SS-Connect-Data".as_slice()
    );
    Ok(())
}
