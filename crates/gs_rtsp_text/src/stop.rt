//! Where reading stops inside a message.

/// Why a text is not read.
#[derive(Clone, Copy)]
pub(crate) enum Stop {
    /// The bytes end, and could go on.
    More,
    /// A byte can't stand where it does: how many bytes are left, that one among them.
    Bad(usize),
}
