// The datagrams of a small frame, byte by byte and by the format alone: packets of 1,024 bytes in one block.

use gs_gf256::{inv, mul};

// A frame: how many datagrams went out before it, its number, kind and time, its numbers of data and parity shards,
// the percentage that it says, and how much of its last payload its header and unit take.
#[derive(Clone, Copy)]
pub(crate) struct PlainFrame {
    pub(crate) count: u32,
    pub(crate) frame: u32,
    pub(crate) kind: u8,
    pub(crate) time: u32,
    pub(crate) shards: u32,
    pub(crate) parity: u32,
    pub(crate) sent: u32,
    pub(crate) last: u16,
}

// A byte of a number, the lowest first.
fn low(number: u32, place: usize) -> u8 {
    number.to_le_bytes().get(place).copied().unwrap_or(0)
}

// A byte of a number, the highest first.
fn high(number: u32, place: usize) -> u8 {
    number.to_be_bytes().get(place).copied().unwrap_or(0)
}

impl PlainFrame {
    fn image_byte(&self, unit: &[u8], place: usize) -> u8 {
        match place {
            0 => 1,
            3 => self.kind,
            4 | 5 => low(u32::from(self.last), place.wrapping_sub(4)),
            8.. => unit.get(place.wrapping_sub(8)).copied().unwrap_or(0),
            _ => 0,
        }
    }

    fn data_byte(&self, unit: &[u8], index: u32, place: usize) -> u8 {
        let first = if index == 0 { 4 } else { 0 };
        let last = if index.wrapping_add(1) == self.shards {
            2
        } else {
            0
        };
        match place {
            1..=3 => low(self.count.wrapping_add(index), place.wrapping_sub(1)),
            8 => 1 | first | last,
            16.. => self.image_byte(
                unit,
                (index as usize)
                    .wrapping_mul(1_008)
                    .wrapping_add(place.wrapping_sub(16)),
            ),
            _ => 0,
        }
    }

    fn parity_byte(&self, unit: &[u8], row: u32, place: usize) -> u8 {
        let mut sum = 0;
        for index in 0..self.shards {
            let point = low(self.parity.wrapping_add(index) ^ row, 0);
            if point != 0 {
                sum ^= mul(inv(point), self.data_byte(unit, index, place));
            }
        }
        sum
    }

    fn shard_byte(&self, unit: &[u8], index: u32, place: usize) -> u8 {
        if index < self.shards {
            self.data_byte(unit, index, place)
        } else {
            self.parity_byte(unit, index.wrapping_sub(self.shards), place)
        }
    }

    // A byte of a datagram, by its index.
    fn datagram_byte(&self, unit: &[u8], index: u32, place: usize) -> u8 {
        let info = self.shards << 22 | index << 12 | self.sent << 4;
        match place {
            0 => 0x90,
            2 | 3 => high(self.count.wrapping_add(index), place),
            4..=7 => high(self.time.wrapping_mul(90), place.wrapping_sub(4)),
            11 => 1,
            20..=23 => low(self.frame, place.wrapping_sub(20)),
            26 => 0x10,
            28..=31 => low(info, place.wrapping_sub(28)),
            16..=19 | 24 | 25 | 32.. => self.shard_byte(unit, index, place.wrapping_sub(16)),
            _ => 0,
        }
    }

    // Whether its datagram of this index stands at the front of these bytes.
    pub(crate) fn is_datagram(&self, index: u32, unit: &[u8], bytes: &[u8]) -> bool {
        for place in 0..1_040_usize {
            if bytes.get(place).copied() != Some(self.datagram_byte(unit, index, place)) {
                return false;
            }
        }
        true
    }
}
