// Bytes to work on, and the checksum of bytes.
ghost use Rattle.std.specs.Prelude.{◌≡◌, IfOk, length};
ghost use Rattle.gsbench.specs.Checksum.{fnv_1a};

use std::alloc::{AllocError, Global};

/// The seed of the bytes of a workload that names none.
pub const SEED: u32 = 0x2545_F491;

/// As many bytes, from a linear congruential generator.
pub fn made(alloc: Global, len: usize, seed: u32) -> Result<Vec<u8>, AllocError>
    ensures { IfOk result (λ bytes. length bytes.items ≡ len) }
{
    let mut bytes = vec![in alloc; 0; len]?;
    let mut state = seed;
    for byte in bytes.iter_mut() {
        state = state.wrapping_mul(1_664_525).wrapping_add(1_013_904_223);
        *byte = (state >> 24) as u8;
    }
    Ok(bytes)
}

/// A checksum of bytes and of their order (32-bit FNV-1a).
pub fn checksum(bytes: &[u8]) -> u32
    ensures { result ≡ fnv_1a bytes.now }
{
    let mut sum = 0x811C_9DC5_u32;
    for byte in bytes {
        sum = (sum ^ u32::from(*byte)).wrapping_mul(0x0100_0193);
    }
    sum
}
