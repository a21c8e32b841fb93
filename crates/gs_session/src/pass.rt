//! A pass of a session.

use crate::shared::Shared;
use gs_turn::Pass;

/// The right to call one session, for one thread at a time. It has no bytes. A contract sees its front
/// (`front`), its numbers with the calls made under each (`own`), and of which session it is (`IsPassOf`).
#[derive(Drop)]
pub struct SessionPass {
    pub(crate) pass: Pass<Shared>,
}
