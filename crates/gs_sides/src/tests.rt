use crate::ControlSide;
use gs_client_core::Asker;
use gs_enet::PeerEvent;
use std::alloc::Global;
use std::test::Fail;

/// A client and the host that answered it.
fn opened(alloc: Global) -> Result<(ControlSide, ControlSide), Fail> {
    let mut client = ControlSide::connect(alloc, 0, 7, 7, 0)?;
    let mut host = ControlSide::accept(alloc, 3, 0, 7, 0)?;
    let mut events = Vec::new(alloc);
    client.write_out(0)?;
    host.write_out(0)?;
    client.take(&host, 1, 0, &mut events)?;
    client.write_out(0)?;
    host.take(&client, 2, 0, &mut events)?;
    Ok((client, host))
}

#[test]
fn a_message_comes_as_it_was_sent(rt: HostRuntime) -> Result<(), Fail> {
    let (mut client, mut host) = opened(rt.alloc())?;
    let mut events = Vec::new(rt.alloc());
    assert!(rt; client.is_open() && host.is_open());
    assert_eq!(rt; client.send(1, b"ask")?, 1);
    assert_eq!(rt; client.given(1), 1);
    client.write_out(0)?;
    assert_eq!(rt; client.wrote(), 3);
    assert!(rt; !host.take(&client, 4, 0, &mut events)?);
    assert!(rt; host.take(&client, 3, 0, &mut events)?);
    let Some(PeerEvent::Message { number, bytes, .. }) = events.first() else {
        return Err(Fail::from("no message"));
    };
    assert_eq!(rt; *number, 1);
    assert_eq!(rt; bytes.as_bytes(), b"ask".as_slice());
    client.close();
    assert!(rt; !client.is_open());
    Ok(())
}

#[test]
fn what_is_owed_is_given(rt: HostRuntime) -> Result<(), Fail> {
    let (mut client, _host) = opened(rt.alloc())?;
    let mut asker = Asker::new(rt.alloc());
    asker.owe_idr()?;
    assert_eq!(rt; client.give_owed(&mut asker)?, 1);
    assert_eq!(rt; client.given(1), 1);
    assert_eq!(rt; client.give_owed(&mut asker)?, 0);
    Ok(())
}

#[test]
fn a_lost_connection_is_told(rt: HostRuntime) -> Result<(), Fail> {
    let (mut client, _host) = opened(rt.alloc())?;
    let mut events = Vec::new(rt.alloc());
    client.send(2, b"key")?;
    for turn in 0..14_u32 {
        client.write_out(4_000 * turn)?;
        client.timer(4_000 * (turn + 1), &mut events)?;
        if !client.is_open() {
            break;
        }
    }
    assert!(rt;
        matches!(
            events.first(),
            Some(PeerEvent::Lost {
                channel: 2,
                number: 1
            })
        )
    );
    assert!(rt; !client.is_open());
    Ok(())
}
