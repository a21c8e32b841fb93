use crate::tests::{connected, tells, written};
use crate::{Peer, PeerEvent, TakeError};
use std::alloc::Global;
use std::test::Fail;

/// What a connected host reads, and what it then writes. None of it is told.
static READ: [(&[u8], &[u8]); 19] = [
    // acknowledgements: of a number that was never sent, on a channel that carries nothing, and of the
    // connect's answer again
    (&[0x80, 0, 0, 7, 1, 2, 0, 5, 0, 5, 0, 0], &[]),
    (&[0x80, 0, 0, 7, 1, 60, 0, 1, 0, 1, 0, 0], &[]),
    (&[0x80, 0, 0, 7, 1, 0xFF, 0, 1, 0, 1, 0, 0], &[]),
    // a connect, and answers to one, with its id and another
    (
        &[
            0x80, 0, 0, 7, 0x82, 0xFF, 0, 1, 0, 3, 0, 0, 0, 0, 5, 0x70, 0, 1, 0, 0, 0, 0, 0, 0x30,
            0, 0, 0, 0, 0, 0, 0, 0, 0, 0, 0x13, 0x88, 0, 0, 0, 2, 0, 0, 0, 2, 0, 0, 0, 1, 0, 0, 0,
            1,
        ],
        &[],
    ),
    (
        &[
            0x80, 0, 0, 7, 0x83, 0xFF, 0, 1, 0, 3, 0, 0, 0, 0, 5, 0x70, 0, 1, 0, 0, 0, 0, 0, 0x30,
            0, 0, 0, 0, 0, 0, 0, 0, 0, 0, 0x13, 0x88, 0, 0, 0, 2, 0, 0, 0, 2, 0, 0, 0, 1,
        ],
        &[],
    ),
    (
        &[
            0x80, 0, 0, 7, 0x83, 0xFF, 0, 1, 0, 3, 0, 0, 0, 0, 5, 0x70, 0, 1, 0, 0, 0, 0, 0, 0x30,
            0, 0, 0, 0, 0, 0, 0, 0, 0, 0, 0x13, 0x88, 0, 0, 0, 2, 0, 0, 0, 2, 0, 0, 0, 9,
        ],
        &[],
    ),
    // pings: one that asks, one that doesn't, and one that another id is addressed by
    (
        &[0x80, 0, 0, 7, 0x85, 0xFF, 0, 4],
        &[0x80, 0, 0, 0, 1, 0xFF, 0, 4, 0, 4, 0, 7],
    ),
    (&[0x80, 0, 0, 7, 5, 0xFF, 0, 4], &[]),
    (
        &[0xB0, 9, 0, 7, 0x85, 0xFF, 0, 4],
        &[0x80, 0, 0, 0, 1, 0xFF, 0, 4, 0, 4, 0, 7],
    ),
    // a bandwidth limit, and a throttle
    (
        &[0x80, 0, 0, 7, 0x8A, 0xFF, 0, 5, 0, 0, 0, 1, 0, 0, 0, 2],
        &[0x80, 0, 0, 0, 1, 0xFF, 0, 5, 0, 5, 0, 7],
    ),
    (
        &[
            0x80, 0, 0, 7, 0x8B, 0xFF, 0, 6, 0, 0, 0, 1, 0, 0, 0, 2, 0, 0, 0, 2,
        ],
        &[0x80, 0, 0, 0, 1, 0xFF, 0, 6, 0, 6, 0, 7],
    ),
    // messages: past a gap, behind without a sent time, and on a channel that carries none
    (&[0x80, 0, 0, 7, 0x86, 2, 0, 2, 0, 1, 65], &[]),
    (&[0x80, 0, 0, 7, 0x86, 2, 0x80, 0, 0, 1, 65], &[]),
    (
        &[0, 0, 6, 2, 0, 0, 0, 1, 65],
        &[0x80, 0, 0, 0, 1, 2, 0, 0, 0, 0, 0, 0],
    ),
    (&[0x80, 0, 0, 7, 0x86, 48, 0, 1, 0, 1, 65], &[]),
    // the other ways to send
    (&[0x80, 0, 0, 7, 7, 2, 0, 1, 0, 1, 0, 1, 65], &[]),
    (
        &[
            0x80, 0, 0, 7, 0x88, 2, 0, 1, 0, 1, 0, 1, 0, 0, 0, 1, 0, 0, 0, 0, 0, 0, 0, 1, 0, 0, 0,
            0, 65,
        ],
        &[],
    ),
    (&[0x80, 0, 0, 7, 9, 2, 0, 1, 0, 1, 0, 1, 65], &[]),
    (
        &[
            0x80, 0, 0, 7, 12, 2, 0, 1, 0, 1, 0, 1, 0, 0, 0, 1, 0, 0, 0, 0, 0, 0, 0, 1, 0, 0, 0, 0,
            65,
        ],
        &[],
    ),
];

/// Whether a peer that reads the datagram tells nothing, and writes that.
fn only_writes(alloc: Global, peer: &mut Peer, given: &[u8], wanted: &[u8]) -> Result<bool, Fail> {
    peer.take(given, 0)?;
    let answer = written(alloc, peer, 0)?;
    Ok(peer.next_event().is_none() && answer.as_slice() == wanted)
}

#[test]
fn what_a_host_ignores_or_answers(rt: HostRuntime) -> Result<(), Fail> {
    let (_client, mut host) = connected(rt.alloc())?;
    for (given, wanted) in READ.iter() {
        assert!(rt; only_writes(rt.alloc(), &mut host, *given, *wanted)?);
    }
    Ok(())
}

/// An answer to the client's connect with that last byte of its id.
fn verified(id: u8) -> [u8; 48] {
    [
        0x80, 0, 0, 7, 0x83, 0xFF, 0, 1, 0, 3, 0, 0, 0, 0, 5, 0x70, 0, 1, 0, 0, 0, 0, 0, 0x30, 0,
        0, 0, 0, 0, 0, 0, 0, 0, 0, 0x13, 0x88, 0, 0, 0, 2, 0, 0, 0, 2, 0, 0, 0, id,
    ]
}

#[test]
fn a_second_answer_to_a_connect(rt: HostRuntime) -> Result<(), Fail> {
    let (mut client, _host) = connected(rt.alloc())?;
    let answer = [0x80, 0, 0, 0, 1, 0xFF, 0, 1, 0, 1, 0, 7];
    assert!(rt; only_writes(rt.alloc(), &mut client, &verified(1), &answer)?);
    assert!(rt; only_writes(rt.alloc(), &mut client, &verified(9), &[])?);
    Ok(())
}

#[test]
fn a_message_comes_again_and_past_a_gap(rt: HostRuntime) -> Result<(), Fail> {
    let (_client, mut host) = connected(rt.alloc())?;
    let second = [0x80, 0, 0, 7, 0x86, 2, 0, 2, 0, 1, 66];
    let first = [0x80, 0, 0, 7, 0x86, 2, 0, 1, 0, 1, 65];
    assert!(rt; only_writes(rt.alloc(), &mut host, &second, &[])?);
    host.take(&first, 0)?;
    assert!(rt; tells(&mut host, 1, b"A"));
    let answer = [
        0x80, 0, 0, 0, 1, 2, 0, 1, 0, 1, 0, 7, 1, 2, 0, 1, 0, 1, 0, 7,
    ];
    assert!(rt; only_writes(rt.alloc(), &mut host, &first, &answer)?);
    Ok(())
}

#[test]
fn a_disconnect_comes_twice(rt: HostRuntime) -> Result<(), Fail> {
    let (_client, mut host) = connected(rt.alloc())?;
    let disconnect = [0x80, 0, 0, 7, 0x84, 0xFF, 0, 2, 0, 0, 0, 0];
    let answer = [0x80, 0, 0, 0, 1, 0xFF, 0, 2, 0, 2, 0, 7];
    host.take(&disconnect, 0)?;
    assert!(rt; matches!(host.next_event(), Some(PeerEvent::PeerClosed)));
    assert_eq!(rt;
        written(rt.alloc(), &mut host, 0)?.as_slice(),
        answer.as_slice()
    );
    assert!(rt; only_writes(rt.alloc(), &mut host, &disconnect, &answer)?);
    Ok(())
}

#[test]
fn what_is_no_datagram(rt: HostRuntime) -> Result<(), Fail> {
    let (_client, mut host) = connected(rt.alloc())?;
    assert_eq!(rt;
        host.take(&[0; 4097], 0).err(),
        Some(TakeError::BadDatagram(4096))
    );
    assert_eq!(rt;
        host.take(&[0x80], 0).err(),
        Some(TakeError::BadDatagram(0))
    );
    assert_eq!(rt;
        host.take(&[0x80, 0, 0], 0).err(),
        Some(TakeError::BadDatagram(2))
    );
    assert_eq!(rt;
        host.take(&[0x80, 0, 0, 0], 0).err(),
        Some(TakeError::BadDatagram(4))
    );
    assert_eq!(rt;
        host.take(&[0, 0, 0x85, 0, 0, 0], 0).err(),
        Some(TakeError::BadDatagram(2))
    );
    assert!(rt; host.next_event().is_none());
    assert!(rt; written(rt.alloc(), &mut host, 0)?.is_empty());
    Ok(())
}
