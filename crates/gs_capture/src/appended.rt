//! What a recorder appends.

use crate::history::Front;
use gs_tape::Tick;
use std::sync::Arc;

/// A tick, and the history that ends with it.
#[derive(Drop)]
pub struct Appended {
    pub tick: Arc<Tick>,
    pub front: Front,
}
