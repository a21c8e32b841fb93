// What a client did.

/// How many frames a client handed, how many ranges it asked for, and how many audio units it played.
#[derive(Clone, Copy, Debug, PartialEq, Eq)]
pub struct ClientSums {
    pub handed: u64,
    pub asks: u64,
    pub units: u64,
}
