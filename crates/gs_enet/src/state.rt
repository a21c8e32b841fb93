//! The states of a connection.

/// Where one side of a connection stands. Behind a state stands the protocol's name of it.
#[derive(Clone, Copy, Debug, PartialEq, Eq)]
pub enum PeerState {
    /// A client whose CONNECT isn't answered yet (`ENET_PEER_STATE_CONNECTING`).
    Connecting,
    /// A host whose VERIFY_CONNECT isn't acknowledged yet (`ENET_PEER_STATE_ACKNOWLEDGING_CONNECT`).
    Accepting,
    /// The connection is up (`ENET_PEER_STATE_CONNECTED`).
    Connected,
    /// The user closed the connection. It ends once the other side has everything
    /// (`ENET_PEER_STATE_DISCONNECT_LATER`, and then `ENET_PEER_STATE_DISCONNECTING`).
    Closing,
    /// The connection is over (`ENET_PEER_STATE_DISCONNECTED`).
    Shut,
}

impl PeerState {
    ghost use Rattle.std.specs.Prelude.{◌≡◌};
    ghost use Rattle.gs_enet.specs.Record.{is_shut};
    ghost use Rattle.gs_enet.specs.Receive.{takes_messages};
    ghost use Rattle.gs_enet.specs.Steps.{is_open};
    ghost use Rattle.gs_enet.specs.Controls.{is_closing, is_accepting};

    /// Whether messages can be given.
    pub(crate) fn is_open(self) -> bool
        ensures { result ≡ is_open self }
    {
        matches!(self, PeerState::Connected)
    }

    pub(crate) fn is_closing(self) -> bool
        ensures { result ≡ is_closing self }
    {
        matches!(self, PeerState::Closing)
    }

    pub(crate) fn is_accepting(self) -> bool
        ensures { result ≡ is_accepting self }
    {
        matches!(self, PeerState::Accepting)
    }

    pub(crate) fn is_shut(self) -> bool
        ensures { result ≡ is_shut self }
    {
        matches!(self, PeerState::Shut)
    }

    /// Whether messages are taken.
    pub(crate) fn takes_messages(self) -> bool
        ensures { result ≡ takes_messages self }
    {
        matches!(self, PeerState::Connected | PeerState::Closing)
    }
}
