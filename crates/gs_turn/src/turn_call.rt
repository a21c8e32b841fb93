//! A member of a history.

/// One call of a cell's history, with the number under which it was made and its reply.
pub struct TurnCall<C, R> {
    pub number: u32,
    pub call: C,
    pub reply: R,
}
