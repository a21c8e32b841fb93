/// How a tick goes out: as which frame, from which tick, of which kind, and against which frame and its
/// tick. An IDR unit refers to none: its reference and the tick named are 0.
#[derive(Clone, Copy, Debug, PartialEq, Eq)]
pub struct Sent {
    pub frame: u32,
    pub tick: u32,
    pub kind: u8,
    pub reference: u32,
    pub named: u32,
}
