//! A host and a client that are joined by hand, over links in memory. The crate is its tests: what the host's core puts
//! is given to the client's core as a table says, and what the client owes goes back to the host over two sides of a
//! control connection.
#![tactic(auto)]

#[cfg(test)]
mod tests;
