ghost use Rattle.std.specs.Prelude.{◌≡◌, ◌+◌, ◌≤◌, ◌<◌, IfOk, OnOk, length};

use crate::{AudioQueue, AudioSender, Played};
use gs_rtp::Settings;
use std::alloc::Global;
use std::process::Abort;
use std::test::Fail;

// Units of one byte.
fn settings() -> Result<Settings, Fail>
    ensures { IfOk result (λ settings. settings.audio ≡ 1) }
{
    let settings = Settings::make(1_024, 0, 0, 60, 5, 1, 1).ok_or("settings")?;
    if settings.audio != 1 {
        return Err("settings".into());
    }
    Ok(settings)
}

// Adds the datagrams of one more unit of one byte.
fn push(sender: &mut AudioSender, unit: u8, datagrams: &mut Vec<Vec<u8>>) -> Result<(), Fail>
    requires size { sender.old.settings.audio ≡ 1 }
    requires more { sender.old.pushed < 100 }
    ensures settings { sender.new.settings ≡ sender.old.settings }
    ensures count { OnOk result (sender.new.pushed ≡ sender.old.pushed + 1) }
{
    let alloc = *datagrams.allocator();
    let mut out = vec![in alloc; 0; 1_456]?;
    for k in 0..sender.push(&[unit]) {
        let length = sender.datagram(k, &mut out);
        datagrams.push(out.get(..length).unwrap_or(&[]).to_vec(alloc)?)?;
    }
    Ok(())
}

// The datagrams of these units of one byte.
fn sent(alloc: Global, units: &[u8]) -> Result<Vec<Vec<u8>>, Fail>
    requires { length units.now ≤ 100 }
{
    let mut sender = AudioSender::new(alloc, &settings()?)?;
    let mut datagrams = Vec::new(alloc);
    'units: for unit in units {
        push(&mut sender, *unit, &mut datagrams)?;
    }
    Ok(datagrams)
}

// What is played: the number of the first unit, and the byte of each, 255 for none.
fn bytes_of(played: Played) -> (u32, [u8; 4]) {
    let byte = |unit: Option<&[u8]>| unit.and_then(|bytes| bytes.first().copied()).unwrap_or(255);
    let [a, b, c, d] = played.units;
    (played.first, [byte(a), byte(b), byte(c), byte(d)])
}

// What the last of these datagrams plays, by their numbers from 1.
fn played(alloc: Global, datagrams: &[Vec<u8>], numbers: &[usize]) -> Result<(u32, [u8; 4]), Fail> {
    let mut queue = AudioQueue::new(alloc, &settings()?)?;
    let mut last = (0, [255; 4]);
    for number in numbers {
        let datagram = datagrams.get(number.wrapping_sub(1)).ok_or("number")?;
        last = bytes_of(queue.add(datagram));
    }
    Ok(last)
}

#[test]
fn datagrams_of_a_block(rt: HostRuntime) -> Result<(), Fail> {
    let datagrams = sent(rt.alloc(), &[1, 0, 0, 0])?;
    assert_eq!(rt; datagrams.len(), 6);
    let unit = [0x80, 0x61, 0, 0, 0, 0, 0, 0, 0, 0, 0, 1, 1];
    assert_eq!(rt; datagrams[0].as_slice(), unit.as_slice());
    let parity = [
        0x80, 0x7F, 0, 4, 0, 0, 0, 0, 0, 0, 0, 1, 0, 0x61, 0, 0, 0, 0, 0, 0, 0, 0, 0, 1, 0x77,
    ];
    assert_eq!(rt; datagrams[4].as_slice(), parity.as_slice());
    assert_eq!(rt; datagrams[5].last(), Some(&0xC7));
    Ok(())
}

#[test]
fn units_are_played(rt: HostRuntime) -> Result<(), Fail> {
    let datagrams = sent(rt.alloc(), &[1, 0, 0, 0, 5, 6, 7, 8, 9])?;
    let nothing = (0, [255; 4]);
    let rows: [(&[usize], (u32, [u8; 4])); 8] = [
        (&[5, 6, 2], nothing),
        (&[5, 6, 2, 3], (0, [1, 0, 0, 0])),
        (&[1, 2, 2, 3], nothing),
        (&[1, 2, 3, 4, 5], nothing),
        (&[1, 2, 3, 4, 13], nothing),
        (&[4, 6, 2, 11], (0, [255, 0, 255, 0])),
        (&[7, 6, 5, 3], nothing),
        (&[1, 11, 12, 9, 10], (4, [5, 6, 7, 8])),
    ];
    for (numbers, expected) in rows {
        assert_eq!(rt; played(rt.alloc(), &datagrams, numbers)?, expected);
    }
    Ok(())
}

#[test]
fn other_bytes_play_nothing(rt: HostRuntime) -> Result<(), Fail> {
    let mut queue = AudioQueue::new(rt.alloc(), &settings()?)?;
    let datagrams: [&[u8]; 4] = [
        &[],
        &[0x80, 0x61, 0, 0, 0, 0, 0, 0, 0, 0, 0, 2, 1],
        &[0x80, 0x61, 0, 0, 0, 0, 0, 1, 0, 0, 0, 1, 1],
        &[0x80, 0x61, 0, 0, 0, 0, 0, 0, 0, 0, 0, 1],
    ];
    for datagram in datagrams {
        assert_eq!(rt; bytes_of(queue.add(datagram)), (0, [255; 4]));
    }
    Ok(())
}
