// Values from outside, a product by shifts and xors at all pairs, and sums of every short length.

ghost use Rattle.std.specs.Prelude.{◌≤◌};

use crate::{BLOCK_LEN, TABLE_LEN, exp, inv, log, mul, mul_add, sum_two, write_block, write_table};
use std::process::Abort;

const LONGEST: usize = 200;

#[test]
fn inverses(rt: HostRuntime) {
    assert_eq!(rt; inv(1), 1);
    assert_eq!(rt; inv(2), 0x8E);
    assert_eq!(rt; inv(3), 0xF4);
}

// The product of two polynomials of 8 bits, and its remainder from bit 14 down.
fn shift_and_xor(a: u8, b: u8) -> u8 {
    let mut product = 0u16;
    for bit in 0..8u32 {
        if b >> bit & 1 == 1 {
            product ^= u16::from(a) << bit;
        }
    }
    for bit in (8..15u32).rev() {
        if product >> bit & 1 == 1 {
            product ^= 0x11D << (bit - 8);
        }
    }
    (product & 0xFF) as u8
}

#[test]
fn products(rt: HostRuntime) {
    for a in 0..=255u8 {
        for b in 0..=255u8 {
            assert_eq!(rt; mul(a, b), shift_and_xor(a, b));
        }
    }
}

#[test]
fn logarithms(rt: HostRuntime) {
    assert_eq!(rt; log(0), 0);
    assert_eq!(rt; exp(u32::MAX), 1);
    for a in 1..=255u8 {
        for b in 1..=255u8 {
            assert_eq!(rt; exp(u32::from(log(a)) + u32::from(log(b))), mul(a, b));
        }
    }
}

// Bytes that differ from place to place.
fn bytes_from(first: u8) -> [u8; LONGEST] {
    let mut bytes = [0; LONGEST];
    let mut byte = first;
    for b in bytes.iter_mut() {
        *b = byte;
        byte = byte.wrapping_add(37);
    }
    bytes
}

fn expect_sums(rt: &impl Abort, length: usize, k: u8)
    requires { length ≤ 200 }
{
    let source = bytes_from(k.wrapping_add(3));
    let before = bytes_from(k.wrapping_mul(5));
    let mut after = before;
    mul_add(&mut after[..length], &source[..length], k);
    for i in 0..LONGEST {
        let sum = if i < length {
            before[i] ^ mul(k, source[i])
        } else {
            before[i]
        };
        assert_eq!(rt; after[i], sum);
    }
}

#[test]
fn sums(rt: HostRuntime) {
    for length in 0..=LONGEST {
        for k in 0..=255u8 {
            expect_sums(&rt, length, k);
        }
    }
}

#[test]
fn sums_of_pairs(rt: HostRuntime) {
    const LEN: usize = 40;
    const AT: usize = 7;
    let shards = bytes_from(91);
    let mut tables = [0; 6 * TABLE_LEN];
    for (place, k) in [3, 200, 0, 1, 255, 17].iter().enumerate() {
        write_table(&mut tables, place * TABLE_LEN, *k);
    }
    let (first, second) = sum_two(&shards, LEN, &[4, 0, 1], AT, &tables);
    let mut written = [0; 2 * BLOCK_LEN];
    write_block(&mut written, 0, first);
    write_block(&mut written, BLOCK_LEN, second);
    for j in 0..BLOCK_LEN {
        let a = shards[4 * LEN + AT + j];
        let b = shards[AT + j];
        let c = shards[LEN + AT + j];
        assert_eq!(rt; written[j], mul(3, a) ^ mul(0, b) ^ mul(255, c));
        assert_eq!(rt;
            written[BLOCK_LEN + j],
            mul(200, a) ^ mul(1, b) ^ mul(17, c)
        );
    }
}
