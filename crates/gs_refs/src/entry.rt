/// One event of a session's history. The k-th `Sent` is frame k, counted from 1.
#[derive(Clone, Copy, Debug, PartialEq, Eq)]
pub enum Entry {
    /// A frame went out: from which tick, of which kind (1 a delta against the last frame, 2 an IDR
    /// unit, 5 a delta against an older frame), and the frame that it refers to, 0 for kind 2.
    Sent { tick: u32, kind: u8, reference: u32 },
    /// The client can't use the frames from `first` to `last`.
    Invalid { first: u32, last: u32 },
    /// The client asked for an IDR unit.
    IdrAsked,
    /// The client named a range that can't be right, and nothing is sent afterwards.
    Ended { first: i64, last: i64 },
}
