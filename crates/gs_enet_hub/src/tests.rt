use crate::{Hub, RouteError};
use gs_bytes::Addr;
use gs_enet::Peer;
use std::test::Fail;

/// A connect datagram with that connect id.
fn connect(rt: &HostRuntime, connect_id: u32) -> Result<Vec<u8>, Fail> {
    let mut client = Peer::connect(rt.alloc(), 0, connect_id, 1, 0)?;
    let mut out = [0u8; 1392];
    let length = client.next_out(0, &mut out).ok_or("no connect")?;
    let datagram = out.get(..length).ok_or("too long")?;
    Ok(Vec::from_slice(rt.alloc(), datagram)?)
}

fn sender(port: u16) -> Addr {
    Addr {
        ip: 0x7F00_0001,
        port,
    }
}

#[test]
fn sixteen_connections(rt: HostRuntime) -> Result<(), Fail> {
    let mut hub = Hub::new(rt.alloc())?;
    for key in 0..16_u16 {
        let datagram = connect(&rt, 7)?;
        let routed = hub.route(sender(key), &datagram, 0);
        assert!(rt; routed == Ok(usize::from(key)));
    }
    let datagram = connect(&rt, 7)?;
    let one_more = hub.route(sender(16), &datagram, 0);
    assert!(rt; one_more == Err(RouteError::HubFull));
    // one that came before goes to its connection
    let first = hub.route(sender(0), &datagram, 0);
    assert!(rt; first == Ok(0));
    // another connect id from the same address is another connection
    let datagram = connect(&rt, 8)?;
    let other = hub.route(sender(0), &datagram, 0);
    assert!(rt; other == Err(RouteError::HubFull));
    Ok(())
}

#[test]
fn a_key_is_used_again(rt: HostRuntime) -> Result<(), Fail> {
    let mut hub = Hub::new(rt.alloc())?;
    for port in 0..4_u16 {
        let datagram = connect(&rt, 7)?;
        hub.route(sender(port), &datagram, 0)?;
    }
    assert!(rt; hub.remove(2).is_some());
    assert!(rt; hub.remove(0).is_some());
    assert!(rt; hub.remove(2).is_none());
    assert!(rt; hub.peer(2).is_none());
    assert!(rt; hub.peer(3).is_some());
    let datagram = connect(&rt, 7)?;
    let again = hub.route(sender(9), &datagram, 0);
    assert!(rt; again == Ok(0));
    let next = hub.route(sender(8), &datagram, 0);
    assert!(rt; next == Ok(2));
    let known = hub.route(sender(1), &datagram, 0);
    assert!(rt; known == Ok(1));
    Ok(())
}

#[test]
fn addressed(rt: HostRuntime) -> Result<(), Fail> {
    let mut hub = Hub::new(rt.alloc())?;
    let datagram = connect(&rt, 7)?;
    hub.route(sender(5), &datagram, 0)?;
    // a ping, to id 0 and to id 9, with a sent time
    let ping = [0x80, 0, 0, 0, 0x85, 0xFF, 0, 2];
    assert!(rt; hub.route(sender(5), &ping, 0) == Ok(0));
    assert!(rt; hub.route(sender(6), &ping, 0) == Err(RouteError::NoPeer));
    let astray = [0x80, 9, 0, 0, 0x85, 0xFF, 0, 2];
    assert!(rt; hub.route(sender(5), &astray, 0) == Err(RouteError::NoPeer));
    assert!(rt; hub.route(sender(5), &ping[..7], 0) == Err(RouteError::BadDatagram(4)));
    // to nobody, and no connect
    let nobody = [0x8F, 0xFF, 0, 0, 0x85, 0xFF, 0, 2];
    assert!(rt; hub.route(sender(5), &nobody, 0) == Err(RouteError::NoPeer));
    Ok(())
}
