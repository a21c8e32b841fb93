//! What a side owes to commands that it read.

/// The answer to a command that asks for one, which is written as an ACKNOWLEDGE.
#[derive(Clone, Copy, Debug, PartialEq, Eq)]
pub struct Answer {
    /// The command's channel (`channelID`).
    pub channel: u8,
    /// The command's number as it came (`receivedReliableSequenceNumber`).
    pub number: u16,
    /// The sent time of the command's datagram (`receivedSentTime`), in milliseconds modulo 65,536; 0
    /// where the datagram had none.
    pub sent: u16,
    /// Whether the command was a DISCONNECT.
    pub to_disconnect: bool,
}
