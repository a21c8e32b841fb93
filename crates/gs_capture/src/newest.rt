//! What a viewer answers of the newest tick.

use gs_tape::Tick as TapeTick;
use std::sync::Arc;

/// The newest tick, or that there is none yet above a number.
#[derive(Drop)]
pub enum Newest {
    Tick(Arc<TapeTick>),
    NotYet,
}
