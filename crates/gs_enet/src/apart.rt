//! A law of two sides whose calls no order joins.

ghost use Rattle.gs_enet.specs.Apart.{MessagesInOrderApart};

/// A law of two new sides, each known by its own calls alone: what it did, in order, all at one moment.
/// Nothing says which call of the one came before which of the other.
///
/// Where each took a front of the datagrams that the other put, all that `messages_in_order` says
/// holds: what a side told on a channel is what the other gave there first, in order. Once it told that
/// the other side disconnected, it is all of that. Once a side heard that its own disconnect was
/// acknowledged, the other has told all that it gave or holds it ready to be told. No numbers need to be
/// near.
pub fn messages_in_order_apart()
    ensures { MessagesInOrderApart }
{}
