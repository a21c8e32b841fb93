/// How a tick goes out: the kind, the frame that it refers to and the tick of that frame.
#[derive(Clone, Copy)]
pub struct Chosen {
    pub kind: u8,
    pub reference: u32,
    pub named: u32,
}
