//! What a side writes until nothing is to be written, a law of the definitions.

ghost use Rattle.gs_enet.specs.WrittenLaw.{WrittenByRepeating};

/// A law of every record: the datagrams that a side writes at a moment until nothing is to be written
/// are its next datagram, and then those of the record after it.
///
/// So calls of `next_out` until it answers `None` write exactly these, one after the other.
pub fn written_by_repeating()
    ensures { WrittenByRepeating }
{}
