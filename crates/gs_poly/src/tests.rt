// Values worked by hand, and a polynomial that its values at some points give elsewhere.

use crate::{eval, weight};
use gs_gf256::mul;
use std::process::Abort;

#[test]
fn values(rt: HostRuntime) {
    assert_eq!(rt; eval(&[], 7), 0);
    assert_eq!(rt; eval(&[5], 7), 5);
    // 1 + 2 * 2 + 3 * 2 * 2
    assert_eq!(rt; eval(&[1, 2, 3], 2), 1 ^ 4 ^ 12);
    // x^8 is x^4 + x^3 + x^2 + 1
    assert_eq!(rt; eval(&[0, 0, 0, 0, 0, 0, 0, 0, 1], 2), 0x1D);
}

#[test]
fn weights(rt: HostRuntime) {
    assert_eq!(rt; weight(&[9], 0, 200), 1);
    // (0 - 1) / (3 - 1), and (7 - 1) / (3 - 1)
    assert_eq!(rt; weight(&[3, 1], 0, 0), 0x8E);
    assert_eq!(rt; weight(&[3, 1], 0, 7), 3);
}

fn expect_interpolated(rt: &impl Abort, c: &[u8], x: u8) {
    const POINTS: [u8; 4] = [0, 1, 2, 4];
    let mut sum = 0;
    for i in 0..4 {
        sum ^= mul(eval(c, POINTS[i]), weight(&POINTS, i, x));
    }
    assert_eq!(rt; sum, eval(c, x));
}

#[test]
fn interpolation(rt: HostRuntime) {
    for x in 0..=255u8 {
        expect_interpolated(&rt, &[7, 200, 31, 254], x);
        expect_interpolated(&rt, &[1, 0, 0, 90], x);
    }
}
