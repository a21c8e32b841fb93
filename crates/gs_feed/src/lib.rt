//! The capture file of a run, read tick by tick as the run captures.
//!
//! A `Feed` reads one tick of the file for each capture, and keeps the newest ticks of those captured: as
//! many as the turn of a host may still want. So the ticks of a file are never all in memory. Its contract
//! ranges over the bytes that the source had: the ticks that they give and the fault behind them
//! (`StandsFor`). What is handed out shares the units that were read, and copies none.
#![tactic(auto)]

mod feed;
mod kept;
mod rest;

pub use feed::Feed;

#[cfg(test)]
mod tests;
