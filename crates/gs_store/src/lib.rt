//! The items that were put one after the other, of which the newest are kept and can be named.
//!
//! An item is named by its number among all that were put, from 1. To every contract a store stands for the list of
//! all of them, the oldest first, though it keeps no more than the last `MOST_NAMED`: `get` finds an item exactly where
//! its number is that of one of these. The room grows with what is kept, by doubling, so that `put` takes constant time
//! on the average, and `get` takes constant time.
#![tactic(auto)]

mod limits;
mod store;

pub use limits::MOST_NAMED;
pub use store::Store;

#[cfg(test)]
mod tests;
