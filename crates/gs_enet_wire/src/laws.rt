//! Laws of the grammar.

ghost use Rattle.gs_enet_wire.specs.Laws.{OneValue, OnePlace, NotBoth, NotNeither, ReadAgain, OneSpelling};

/// Bytes have exactly one reading: one datagram, or one place of a fault.
pub fn one_reading()
    ensures value { OneValue }
    ensures place { OnePlace }
    ensures not_both { NotBoth }
    ensures not_neither { NotNeither }
{}

/// What was written is read again as the same datagram.
pub fn written_is_read()
    ensures { ReadAgain }
{}

/// No two datagrams have one spelling in which each ignored bit is 0.
pub fn one_spelling()
    ensures { OneSpelling }
{}
