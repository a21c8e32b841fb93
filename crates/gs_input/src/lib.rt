//! Input events of a GameStream client: keys, the pointer, its buttons and the scroll wheel.
//!
//! An event is carried in an input packet of the control stream (`Event::read`, `Event::write`) and
//! spelled as a line of words (`read_line`, `write_line`). The contracts say that each reader
//! answers an event exactly where the bytes are in the grammar, and that what a writer wrote is
//! read as the same event. `Pressed` keeps the keys that are down. `InputSink` is where a host puts
//! the events that it was told; `MemInput` and `SureInput` are sinks in memory.
#![tactic(auto)]

mod arguments;
mod event;
mod laws;
mod limits;
mod line;
mod mem_input;
mod packet;
mod pressed;
mod sink;
mod sure_input;

pub use event::{BadEvent, Event};
pub use laws::{
    last_key_event_decides, line_has_one_event, line_is_read, packet_has_one_event, packet_is_read,
    unknown_is_not_read,
};
pub use limits::EVENT_ROOM;
pub use line::{read_arguments, read_line, write_line};
pub use mem_input::MemInput;
pub use pressed::Pressed;
pub use sink::{Input, InputSink};
pub use sure_input::SureInput;

#[cfg(test)]
mod tests;
