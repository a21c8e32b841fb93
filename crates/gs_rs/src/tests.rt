// Worked values of both codes, and every loss that the small codes bear.
ghost use Rattle.std.specs.Prelude.{◌≤◌};
ghost use Rattle.gs_rs.specs.Shape.{shard_count};

use crate::{BadCounts, Code, TooFew};
use std::process::Abort;
use std::test::Fail;

const LEN: usize = 3;

const MOST: usize = 12;

const SIZE: usize = 36;

#[test]
fn audio_parity(rt: HostRuntime) {
    let code = Code::audio();
    for (source, want) in [
        ([1, 0, 0, 0], [0x77, 0xC7]),
        ([0, 1, 0, 0], [0x40, 0xA7]),
        ([1, 1, 1, 1], [1, 1]),
    ] {
        let mut parity = [0; 2];
        code.encode(1, &source, &mut parity);
        assert_eq!(rt; parity, want);
    }
}

#[test]
fn video_parity(rt: HostRuntime) -> Result<(), Fail> {
    let code = Code::video(1, 2).ok().ok_or("counts")?;
    let mut parity = [0; 2];
    code.encode(1, &[1], &mut parity);
    assert_eq!(rt; parity, [0x8E, 0xF4]);
    let mut shards = [7, 7, 0xF4];
    assert_eq!(rt; code.restore(1, &mut shards, &[false, false, true]), Ok(()));
    assert_eq!(rt; shards, [1, 7, 0xF4]);

    let code = Code::video(2, 1).ok().ok_or("counts")?;
    let mut parity = [0; 1];
    code.encode(1, &[1, 1], &mut parity);
    assert_eq!(rt; parity, [0x8F]);
    let mut shards = [1, 2, 3];
    assert_eq!(rt;
        code.restore(1, &mut shards, &[false, true, false]),
        Err(TooFew)
    );
    assert_eq!(rt; shards, [1, 2, 3]);
    Ok(())
}

#[test]
fn counts(rt: HostRuntime) {
    for (d, p, fits) in [
        (0, 1, false),
        (200, 56, false),
        (200, 55, true),
        (1, 0, true),
        (255, 0, true),
    ] {
        let made = Code::video(d, p);
        assert_eq!(rt; made.is_ok(), fits, "{d} and {p}");
    }
    assert_eq!(rt; Code::video(usize::MAX, usize::MAX), Err(BadCounts));
}

// Longer shards are coded by blocks, and each of their columns as shards of one byte are.
#[test]
fn columns(rt: HostRuntime) -> Result<(), Fail> {
    const LONG: usize = 71;
    let code = Code::video(3, 7).ok().ok_or("counts")?;
    let mut block = [0; 10 * LONG];
    for i in 0..block.len() {
        block[i] = ((i * i * 11 + i * 3 + 9) % 256) as u8;
    }
    let (source, parity) = block.split_at_mut(3 * LONG);
    code.encode(LONG, source, parity);
    for k in 0..LONG {
        let column = [source[k], source[LONG + k], source[2 * LONG + k]];
        let mut rows = [0; 7];
        code.encode(1, &column, &mut rows);
        for row in 0..7 {
            assert_eq!(rt; parity[row * LONG + k], rows[row]);
        }
    }
    Ok(())
}

// Seven absent shards are restored by a group of four, one of two, and one alone.
#[test]
fn groups(rt: HostRuntime) -> Result<(), Fail> {
    let code = Code::video(8, 7).ok().ok_or("counts")?;
    let mut source = [0; 320];
    for i in 0..320 {
        source[i] = ((i * i * 5 + i * 13 + 1) % 256) as u8;
    }
    let mut parity = [0; 280];
    code.encode(40, &source, &mut parity);
    let mut shards = all_but_seven(&source, &parity);
    let outcome = code.restore(40, &mut shards, &present_but_seven());
    assert_eq!(rt; outcome, Ok(()));
    for i in 0..320 {
        assert_eq!(rt; shards[i], source[i]);
    }
    Ok(())
}

// Of the data shards the fourth alone is there.
fn all_but_seven(source: &[u8; 320], parity: &[u8; 280]) -> [u8; 600] {
    let mut shards = [0xEE; 600];
    for i in 120..160 {
        shards[i] = source[i];
    }
    for i in 0..280 {
        shards[320 + i] = parity[i];
    }
    shards
}

fn present_but_seven() -> [bool; 15] {
    let mut present = [true; 15];
    for shard in 0..8 {
        present[shard] = shard == 3;
    }
    present
}

#[test]
fn every_loss(rt: HostRuntime) -> Result<(), Fail> {
    losses(&rt, &Code::audio());
    for d in 1..MOST + 1 {
        for p in 0..MOST + 1 - d {
            let code = Code::video(d, p).ok().ok_or("counts")?;
            assert_eq!(rt; (code.data(), code.parity()), (d, p));
            losses(&rt, &code);
        }
    }
    Ok(())
}

// Drops each set of as many shards as there are parity shards.
fn losses(rt: &impl Abort, code: &Code)
    requires { shard_count code.now ≤ 12 }
{
    let data = code.data();
    let shards = data + code.parity();
    let mut block = [0; SIZE];
    for i in 0..SIZE {
        block[i] = ((i * i * 7 + i * 29 + 5) % 256) as u8;
    }
    let (source, parity) = block[..shards * LEN].split_at_mut(data * LEN);
    code.encode(LEN, source, parity);
    for kept in 0..1_u32 << shards {
        if kept.count_ones() as usize == data {
            loses(rt, code, &block, kept);
        }
    }
}

// Restores a block of which only the shards in a mask are kept.
fn loses(rt: &impl Abort, code: &Code, block: &[u8; SIZE], kept: u32)
    requires { shard_count code.now ≤ 12 }
{
    let data = code.data() * LEN;
    let count = code.data() + code.parity();
    let mut shards = *block;
    let mut present = [true; MOST];
    for i in 0..count {
        if (kept >> i) & 1 == 0 {
            present[i] = false;
            shards[i * LEN..i * LEN + LEN].fill(0xEE);
        }
    }
    let damaged = shards;
    let outcome = code.restore(LEN, &mut shards[..count * LEN], &present[..count]);
    assert_eq!(rt; outcome, Ok(()));
    assert_eq!(rt; &shards[..data], &block[..data], "kept {kept:b}");
    assert_eq!(rt; &shards[data..], &damaged[data..], "kept {kept:b}");
}
