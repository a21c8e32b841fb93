// What a message asks of a host.

ghost use Rattle.std.specs.Prelude.{◌≡◌};
ghost use Rattle.gs_host_core.specs.declared.act.Act as spec;
ghost use Rattle.gs_host_core.specs.Acts.{HasActButton, IsActOf, act_for};
ghost use Rattle.gs_host_core.specs.ActOf.{act_of};

use gs_control::Message;
use gs_input::Event;

/// What a message asks of a host.
#[derive(Clone, Copy, Debug, PartialEq, Eq)]
pub enum Act {
    /// The client can't use the frames from `first` to `last`.
    Invalidate { first: i64, last: i64 },
    /// The next frame is to be an IDR frame.
    AskIdr,
    /// What the user did.
    Input(Event),
    /// Nothing.
    Nothing,
}

/// What a message asks of a host, on whatever channel it came: nothing where it is no message, or one that asks for
/// nothing.
pub fn act_of(message: &[u8]) -> Act
    ensures act { IsActOf message.now result }
    ensures only { (act : spec.Act) → IsActOf message.now act → act ≡ result }
    ensures value { result ≡ act_of message.now }
    ensures button { HasActButton result }
{
    match Message::read(message) {
        Ok(read) => act_in(&read),
        Err(_) => Act::Nothing,
    }
}

// What a message asks for.
fn act_in(message: &Message) -> Act
    ensures { result ≡ act_for message.now }
{
    match *message {
        Message::Invalidate { first, last } => Act::Invalidate { first, last },
        Message::IdrRequest => Act::AskIdr,
        Message::Input(event) => Act::Input(event),
        _ => Act::Nothing,
    }
}
