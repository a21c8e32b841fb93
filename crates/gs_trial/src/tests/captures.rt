// Capture files of the tests, byte by byte.

use std::alloc::Global;
use std::test::Fail;

// A tick's first bytes: its tag, the time 0, no audio, and this many deltas.
fn push_tick(file: &mut Vec<u8>, deltas: u8) -> Result<(), Fail> {
    file.extend_from_slice(b"T\0\0\0\0\0")?;
    file.push(deltas)?;
    Ok(())
}

// A length, and so many bytes.
fn push_unit(file: &mut Vec<u8>, length: u32) -> Result<(), Fail> {
    file.extend_from_slice(&length.to_le_bytes())?;
    for _ in 0..length {
        file.push(7)?;
    }
    Ok(())
}

/// A capture file without audio or deltas: so many ticks, each with an IDR unit of this length.
pub fn units(alloc: Global, ticks: u32, length: u32) -> Result<Vec<u8>, Fail> {
    let mut file = Vec::new(alloc);
    file.extend_from_slice(b"GSTAPE01\0\0\x05\0")?;
    for _ in 0..ticks {
        push_tick(&mut file, 0)?;
        push_unit(&mut file, length)?;
    }
    file.push(b'E')?;
    Ok(file)
}

/// A capture file without audio: up to nine ticks, each with an IDR unit of five bytes and units of four bytes against
/// all ticks before it.
pub fn chain(alloc: Global, ticks: u8) -> Result<Vec<u8>, Fail> {
    let mut file = Vec::new(alloc);
    file.extend_from_slice(b"GSTAPE01\0\0\x05\0")?;
    for before in 0..ticks {
        push_tick(&mut file, before)?;
        push_unit(&mut file, 5)?;
        for named in 0..before {
            file.extend_from_slice(&(named as u32 + 1).to_le_bytes())?;
            push_unit(&mut file, 4)?;
        }
    }
    file.push(b'E')?;
    Ok(file)
}
