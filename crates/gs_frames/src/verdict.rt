/// The verdict on a datagram that came: the first of these that holds.
#[derive(Clone, Copy, Debug, PartialEq, Eq)]
pub enum Added {
    /// It isn't a datagram of this session, or disagrees with what came of its frame.
    Foreign(Why),
    /// Its frame was left; `current` is the greatest frame taken.
    Old { current: u32 },
    /// Its shard is held.
    Repeat,
    /// Its block has as many shards as data shards without it.
    Spare,
    /// Its shard is held now, and its block isn't whole yet.
    Added,
    /// Its block became whole, and its frame isn't yet.
    BlockWhole,
    /// Its frame became whole.
    FrameWhole,
}

/// Why a datagram is foreign.
#[derive(Clone, Copy, Debug, PartialEq, Eq)]
pub enum Why {
    /// It is outside the grammar of video datagrams.
    Grammar,
    /// Its ssrc is another session's.
    Ssrc { came: u32 },
    /// What it says of its frame and block isn't what the first datagrams of these said. `came` is what it says, and
    /// `had` what they said; where none of its block came, `had` has the datagram's own shards and percentage.
    Shape { had: Shape, came: Shape },
}

/// What each datagram says of its frame and of its block: the number of the frame's last block, from 0, and the
/// block's number of data shards and its percentage of parity.
#[derive(Clone, Copy, Debug, PartialEq, Eq)]
pub struct Shape {
    pub last_block: u8,
    pub shards: u16,
    pub percentage: u8,
}
