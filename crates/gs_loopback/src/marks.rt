// How far a pump is.

/// Up to which of the datagrams of each kind a pump has delivered, or how many there are.
#[derive(Clone, Copy, Debug, PartialEq, Eq)]
pub struct Marks {
    pub video: u64,
    pub audio: u64,
    pub up: u64,
    pub down: u64,
}
