//! Erasure codes over GF(2^8): from D data shards of one length, P parity shards, such that any D of
//! the D + P shards give back the others.
//!
//! There are two codes, those of the GameStream protocol. The video code, of any D and P with D at
//! least 1 and D + P at most 255, is a systematic Cauchy Reed-Solomon code. The audio code has 4 data
//! shards and 2 parity shards. In both, each shard has a point, and the bytes that the shards have at
//! one place are the values there of one polynomial of degree below D, each divided by a number that
//! only the point determines (specs/Codeword.antt).
//!
//! `Code::encode` writes the parity that makes a block. `Code::restore` writes the absent data shards
//! of each block that has the chosen shards, the D present ones of lowest number, and there is always
//! such a block. It writes nothing else, and answers `TooFew`, with nothing written, exactly where
//! fewer than D shards are present. `code_laws` says that any D shards of a block determine it, that
//! some block has D shards of any content, and that the polynomials give what the parity rows give.
//!
//! No call takes memory. `encode` adds up D * P products of shards of `len` bytes, and `restore` L * D
//! for L absent data shards, and none where L is 0: both write shards in groups of four or two, which
//! share one reading of the others (`gs_gf256::sum_four`, `sum_two`), and the last of an odd number, or
//! shards shorter than a block of 32 bytes, one by one (`gs_gf256::mul_add`). Before that `restore` finds
//! the weights, free of `len`: what belongs to a present shard is found once a block, by sums of at most
//! 2 * D * D logarithms, and each absent data shard takes at most 2 * D logarithms, 2 * D products and
//! D + 1 inverses more.
#![tactic(auto)]

mod code;
mod encode;
mod group;
mod laws;
mod limits;
mod restore;
mod shape;
#[cfg(test)]
mod tests;
mod weights;

pub use code::{BadCounts, Code};
pub use laws::{code_laws, held_shards_hold_block};
pub use limits::MAX_SHARDS;
pub use restore::TooFew;
pub use shape::{CodeShape, Form};
