//! One side of a connection.

ghost use Rattle.std.specs.Prelude.{◌≡◌, ◌≤◌, ◌<◌, ◌+◌, false, IfOk, vec_len};
ghost use Rattle.std.specs.VecDeque.{deque_len, deque_capacity};
ghost use Rattle.gs_enet.specs.Record;
ghost use Rattle.gs_enet.specs.Record.{is_shut};
ghost use Rattle.gs_enet.specs.Controls.{has_left};
ghost use Rattle.gs_enet.specs.Busy.{AreIdle};

use crate::answer::Answer;
use crate::busy::Busy;
use crate::channel::Channel;
use crate::control::{Control, ControlKind};
use crate::new_channels::new_channels;
use crate::{PeerEvent, PeerState};
use gs_bytes::OutOfMemory;
use gs_enet_wire::{Command, Connect};
use std::alloc::Global;
use std::collections::VecDeque;

/// One side of a connection. It reads and writes datagrams, and knows the moments that its caller says.
#[derive(Drop)]
pub struct Peer {
    pub(crate) state: PeerState,
    /// The id by which the other side addresses this one (`incomingPeerID`).
    pub(crate) own: u16,
    /// The id by which this side addresses the other one (`outgoingPeerID`), once it is known.
    pub(crate) other: Option<u16>,
    /// The number that both sides know the connection by (`connectID`).
    pub(crate) connect_id: u32,
    /// The number that a client's CONNECT carries (`data`); a host has none.
    pub(crate) extra: Option<u32>,
    /// The greatest moment that was said (`serviceTime`), in milliseconds.
    pub(crate) moment: u32,
    pub(crate) disconnected: bool,
    pub(crate) last_control: u16,
    pub(crate) control: Option<Control>,
    pub(crate) channels: Vec<Channel>,
    pub(crate) busy: Busy,
    pub(crate) waiting: VecDeque<PeerEvent>,
    pub(crate) pending: VecDeque<Answer>,
    /// Kept for the commands of a datagram that is read, from one to the next.
    pub(crate) commands: Vec<Command>,
    ghost all: { vec_len channels ≡ Record.channels },
    ghost idle: { AreIdle busy.from busy.to channels.items },
    // The loss of the connection can always be told.
    ghost room: { is_shut state ≡ false → deque_len waiting + 1 ≤ deque_capacity waiting },
    // The disconnect is the second command of the control channel.
    ghost counted: { has_left state control ≡ false → last_control ≡ 1 },
}

impl Peer {
    ghost use Rattle.gs_enet.specs.Record.{connecting, accepting};
    ghost use Rattle.gs_enet.specs.Standing.{IsPeerOf};

    /// The client's side: it asks for a connection by a CONNECT with its own id (`outgoingPeerID` there),
    /// the connect id (`connectID`) and a number of the user's own (`data`). `now` is the moment in
    /// milliseconds.
    pub fn connect(
        alloc: Global,
        own: u16,
        connect_id: u32,
        extra: u32,
        now: u32,
    ) -> Result<Peer, OutOfMemory>
        ensures { IfOk result (λ peer. IsPeerOf peer (connecting own connect_id extra now)) }
    {
        Ok(Peer {
            state: PeerState::Connecting,
            own,
            other: None,
            connect_id,
            extra: Some(extra),
            moment: now,
            disconnected: false,
            last_control: 1,
            control: Some(Control::new(ControlKind::Connect, 1)),
            channels: new_channels(alloc)?,
            busy: Busy::none(),
            waiting: VecDeque::with_capacity(alloc, 2)?,
            pending: VecDeque::new(alloc),
            commands: Vec::new(alloc),
        })
    }

    /// The host's side: it answers a CONNECT by a VERIFY_CONNECT with its own id (`outgoingPeerID` there)
    /// and the connect id that came. `now` is the moment in milliseconds.
    pub fn accept(alloc: Global, own: u16, connect: &Connect, now: u32) -> Result<Peer, OutOfMemory>
        ensures { IfOk result (λ peer.
            IsPeerOf peer (accepting own connect.now.peer connect.now.connect_id now)) }
    {
        Ok(Peer {
            state: PeerState::Accepting,
            own,
            other: Some(connect.peer),
            connect_id: connect.connect_id,
            extra: None,
            moment: now,
            disconnected: false,
            last_control: 1,
            control: Some(Control::new(ControlKind::VerifyConnect, 1)),
            channels: new_channels(alloc)?,
            busy: Busy::none(),
            waiting: VecDeque::with_capacity(alloc, 2)?,
            pending: VecDeque::new(alloc),
            commands: Vec::new(alloc),
        })
    }
}
