//! The laws of the grammars, each the contract of a function that does nothing.

ghost use Rattle.gs_input.specs.Laws.{LastKeyEventDecides, LineHasOneEvent, LineIsRead, PacketHasOneEvent};
ghost use Rattle.gs_input.specs.Laws.{PacketIsRead, UnknownIsNotRead};

/// What is written for an event is a packet of that event.
pub fn packet_is_read()
    ensures { PacketIsRead }
{}

/// Bytes are a packet of one event at most.
pub fn packet_has_one_event()
    ensures { PacketHasOneEvent }
{}

/// What is written for an event is a line of that event.
pub fn line_is_read()
    ensures { LineIsRead }
{}

/// A line is that of one event at most.
pub fn line_has_one_event()
    ensures { LineHasOneEvent }
{}

/// What is written for an unknown event is no line of any event.
pub fn unknown_is_not_read()
    ensures { UnknownIsNotRead }
{}

/// A code is down after events where the last key event of that code was a key down.
pub fn last_key_event_decides()
    ensures { LastKeyEventDecides }
{}
