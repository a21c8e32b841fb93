//! Laws of two sides, proved of the definitions.

ghost use Rattle.gs_enet.specs.Laws.{MessagesInOrder};

/// A law of two new sides, under any list of what their users do and of what comes. Datagrams may be
/// lost, repeated, late or out of order, as long as their numbers are near the expected ones.
///
/// What a side told on a channel is what the other gave there first, in order. Once it told that the
/// other side disconnected, it is all of that. Once a side heard that its own disconnect was
/// acknowledged, the other has told all that it gave or holds it ready to be told.
pub fn messages_in_order()
    ensures { MessagesInOrder }
{}
