/// A frame that was sent, and its tick.
#[derive(Clone, Copy)]
pub struct Candidate {
    pub frame: u32,
    pub tick: u32,
}
