use super::*;
use gs_input::Event;

#[test]
fn messages(rt: HostRuntime) {
    let read: [(&[u8], Result<Message, BadMessage>); 25] = [
        (&[0x05, 0x03, 0, 0], Ok(Message::StartA)),
        (&[0x05, 0x03], Ok(Message::StartA)),
        (&[0x07, 0x03, 9], Ok(Message::StartB)),
        (
            &[
                0x01, 0x03, 2, 0, 0, 0, 0, 0, 0, 0, 0xFE, 0xFF, 0xFF, 0xFF, 0xFF, 0xFF, 0xFF, 0xFF,
                9, 9, 9, 9, 9, 9, 9, 9,
            ],
            Ok(Message::Invalidate { first: 2, last: -2 }),
        ),
        (&[0x01, 0x02, 1, 2, 3], Ok(Message::LossStats)),
        (
            &[0x06, 0x02, 0, 0, 0, 10, 3, 0, 0, 0, 0, 65, 0, 0, 0, 0],
            Ok(Message::Input(Event::KeyDown {
                code: 65,
                modifiers: 0,
            })),
        ),
        (
            &[0x06, 0x02, 0, 0, 0, 5, 12, 0, 0, 0, 1],
            Ok(Message::Input(Event::Unknown { magic: 12 })),
        ),
        (&[0x0B, 0x01], Ok(Message::Rumble)),
        (
            &[0x09, 0x01, 0, 0, 0, 2],
            Ok(Message::Termination { code: 2 }),
        ),
        (
            &[0x09, 0x01, 0x80, 0, 0, 1],
            Ok(Message::Termination { code: 0x8000_0001 }),
        ),
        (&[0x00, 0x02, 0, 0, 0, 0, 0, 0, 0, 0], Ok(Message::Ping)),
        (&[0x02, 0x03, 0, 0], Ok(Message::IdrRequest)),
        (&[0x03, 0x05, 0, 0], Ok(Message::Other { kind: 0x0503 })),
        (&[0, 0], Ok(Message::Other { kind: 0 })),
        (&[], Err(BadMessage { kind: 0, length: 0 })),
        (&[0x05], Err(BadMessage { kind: 0, length: 1 })),
        (
            &[0x01, 0x03, 2, 0],
            Err(BadMessage {
                kind: 0x0301,
                length: 4,
            }),
        ),
        (
            &[0x09, 0x01, 0, 0, 0],
            Err(BadMessage {
                kind: 0x0109,
                length: 5,
            }),
        ),
        (
            &[0x09, 0x01, 0, 0, 0, 0, 0],
            Err(BadMessage {
                kind: 0x0109,
                length: 7,
            }),
        ),
        (
            &[0x06, 0x02],
            Err(BadMessage {
                kind: 0x0206,
                length: 2,
            }),
        ),
        (
            &[0x06, 0x02, 0, 0, 0, 5, 8, 0, 0, 0, 6],
            Err(BadMessage {
                kind: 0x0206,
                length: 11,
            }),
        ),
        (&[0x00; 66], Ok(Message::Other { kind: 0 })),
        (&[0x02; 66], Ok(Message::Other { kind: 0x0202 })),
        (&LONGEST_PING, Ok(Message::Ping)),
        (
            &TOO_LONG_PING,
            Err(BadMessage {
                kind: 0x0200,
                length: 67,
            }),
        ),
    ];
    for (bytes, message) in read.iter() {
        assert_eq!(rt; Message::read(bytes), *message);
    }
}

const LONGEST_PING: [u8; 66] = [
    0, 2, 0, 0, 0, 0, 0, 0, 0, 0, 0, 0, 0, 0, 0, 0, 0, 0, 0, 0, 0, 0, 0, 0, 0, 0, 0, 0, 0, 0, 0, 0,
    0, 0, 0, 0, 0, 0, 0, 0, 0, 0, 0, 0, 0, 0, 0, 0, 0, 0, 0, 0, 0, 0, 0, 0, 0, 0, 0, 0, 0, 0, 0, 0,
    0, 0,
];

const TOO_LONG_PING: [u8; 67] = [
    0, 2, 0, 0, 0, 0, 0, 0, 0, 0, 0, 0, 0, 0, 0, 0, 0, 0, 0, 0, 0, 0, 0, 0, 0, 0, 0, 0, 0, 0, 0, 0,
    0, 0, 0, 0, 0, 0, 0, 0, 0, 0, 0, 0, 0, 0, 0, 0, 0, 0, 0, 0, 0, 0, 0, 0, 0, 0, 0, 0, 0, 0, 0, 0,
    0, 0, 0,
];

#[test]
fn written_messages(rt: HostRuntime) {
    let mut out = [0xAA; MESSAGE_ROOM];
    let length = Message::Invalidate { first: 2, last: 2 }.write(&mut out);
    assert_eq!(rt;
        &out[..length],
        [
            0x01, 0x03, 2, 0, 0, 0, 0, 0, 0, 0, 2, 0, 0, 0, 0, 0, 0, 0, 0, 0, 0, 0, 0, 0, 0, 0
        ]
        .as_slice()
    );
    let length = Message::Input(Event::KeyDown {
        code: 65,
        modifiers: 0,
    })
    .write(&mut out);
    assert_eq!(rt;
        &out[..length],
        [0x06, 0x02, 0, 0, 0, 10, 3, 0, 0, 0, 0, 65, 0, 0, 0, 0].as_slice()
    );
    let length = Message::Termination { code: 1 }.write(&mut out);
    assert_eq!(rt; &out[..length], [0x09, 0x01, 0, 0, 0, 1].as_slice());
    let length = Message::StartA.write(&mut out);
    assert_eq!(rt; &out[..length], [0x05, 0x03, 0, 0].as_slice());
    let length = Message::StartB.write(&mut out);
    assert_eq!(rt; &out[..length], [0x07, 0x03, 0].as_slice());
    let length = Message::Ping.write(&mut out);
    assert_eq!(rt;
        &out[..length],
        [0x00, 0x02, 0, 0, 0, 0, 0, 0, 0, 0].as_slice()
    );
    let length = Message::IdrRequest.write(&mut out);
    assert_eq!(rt; &out[..length], [0x02, 0x03, 0, 0].as_slice());
}
