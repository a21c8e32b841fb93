//! What a cell may hold.

/// A state that changes by calls.
pub trait Turned {
    type Call;

    type Reply;

    /// What a step may do: the state before, the call, the reply and the state after.
    ghost steps: { Self → Self.Call → Self.Reply → Self → Type 0 };

    /// Makes one call.
    fn step(&mut self, call: Self::Call) -> Self::Reply
        ensures { steps self.old call result self.new };
}
