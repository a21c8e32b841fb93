//! Addresses of datagrams.

/// An IPv4 address, its most significant byte first in its text form, and a UDP or TCP port.
#[derive(Clone, Copy, Debug, PartialEq, Eq)]
pub struct Addr {
    pub ip: u32,
    pub port: u16,
}
