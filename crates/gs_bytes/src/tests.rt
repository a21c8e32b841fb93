use super::*;
use std::test::Fail;

#[test]
fn fields_stand_at_their_places(rt: HostRuntime) {
    let mut out = [9u8; 10];
    write_u16_be(&mut out, 1, 0x0102);
    write_u16_le(&mut out, 3, 0x0102);
    write_u32_be(&mut out, 5, 0x0304_0506);
    assert!(rt; out == [9, 1, 2, 2, 1, 3, 4, 5, 6, 9]);
    assert!(rt; read_u16_be(&out, 1) == 0x0102);
    assert!(rt; read_u16_le(&out, 3) == 0x0102);
    assert!(rt; read_u32_be(&out, 5) == 0x0304_0506);
    write_u32_le(&mut out, 0, 0x0708_090A);
    assert!(rt; out == [10, 9, 8, 7, 1, 3, 4, 5, 6, 9]);
    assert!(rt; read_u32_le(&out, 0) == 0x0708_090A);
}

#[test]
fn long_fields_stand_at_their_places(rt: HostRuntime) {
    let mut out = [0u8; 9];
    write_u64_be(&mut out, 1, 0x0102_0304_0506_0708);
    assert!(rt; out == [0, 1, 2, 3, 4, 5, 6, 7, 8]);
    assert!(rt; read_u64_be(&out, 1) == 0x0102_0304_0506_0708);
    write_u64_le(&mut out, 0, 0x0102_0304_0506_0708);
    assert!(rt; out == [8, 7, 6, 5, 4, 3, 2, 1, 8]);
    assert!(rt; read_u64_le(&out, 0) == 0x0102_0304_0506_0708);
    write_i64_le(&mut out, 1, -2);
    assert!(rt; out == [8, 254, 255, 255, 255, 255, 255, 255, 255]);
    assert!(rt; read_i64_le(&out, 1) == -2);
}

#[test]
fn a_text_keeps_its_bytes(rt: HostRuntime) -> Result<(), Fail> {
    let text = Text::copy_of(rt.alloc(), b"abc")?;
    assert!(rt; text.as_bytes() == b"abc".as_slice());
    assert!(rt; text.len() == 3);
    assert!(rt; !text.is_empty());
    let again = Text::from_vec([97u8, 98, 99].to_vec(rt.alloc())?);
    assert!(rt; text == again);
    assert!(rt; text != Text::copy_of(rt.alloc(), b"abd")?);
    assert!(rt; text.into_vec().as_slice() == b"abc".as_slice());
    assert!(rt; Text::copy_of(rt.alloc(), b"")?.is_empty());
    Ok(())
}

#[test]
fn a_source_fails_as_planned(rt: HostRuntime) -> Result<(), Fail> {
    let mut source = MemSource::new(rt.alloc(), b"ABCDE", &[2])?;
    let mut into = [0u8; 3];
    assert!(rt; source.read(&mut into) == Ok(3));
    assert!(rt; into == *b"ABC");
    assert!(rt; source.read(&mut into) == Err(Failed::Fault));
    assert!(rt; source.faults() == 1);
    assert!(rt; source.left() == b"DE".as_slice());
    assert!(rt; source.read(&mut into) == Ok(2));
    assert!(rt; into[..2] == [68, 69]);
    assert!(rt; !source.met_end());
    assert!(rt; source.read(&mut into) == Ok(0));
    assert!(rt; source.met_end());
    assert!(rt; source.faults() == 1);
    Ok(())
}

#[test]
fn a_sink_fails_as_planned(rt: HostRuntime) -> Result<(), Fail> {
    let mut sink = MemSink::new(rt.alloc(), 2, &[2])?;
    assert!(rt; sink.write(b"ABC") == Ok(2));
    assert!(rt; sink.write(b"C") == Err(Failed::Fault));
    assert!(rt; sink.write(b"C") == Ok(1));
    assert!(rt; sink.written() == b"ABC".as_slice());
    assert!(rt; sink.faults() == 1);
    let mut stuck = MemSink::new(rt.alloc(), 0, &[])?;
    assert!(rt; stuck.write(b"A") == Ok(0));
    assert!(rt; stuck.written() == b"".as_slice());
    assert!(rt; stuck.faults() == 1);
    Ok(())
}

#[test]
fn all_bytes_are_written_or_a_part(rt: HostRuntime) -> Result<(), Fail> {
    let mut sure = SureSink::new(rt.alloc(), 2)?;
    assert!(rt; sure.write(b"ABC") == Ok(2));
    assert!(rt; write_all(&mut sure, b"CDEFG") == Ok(()));
    assert!(rt; sure.written() == b"ABCDEFG".as_slice());
    let mut third = MemSink::new(rt.alloc(), 2, &[3])?;
    assert!(rt; write_all(&mut third, b"ABCDE") == Err(Failed::Fault));
    assert!(rt; third.written() == b"ABCD".as_slice());
    let mut stuck = MemSink::new(rt.alloc(), 0, &[])?;
    assert!(rt; write_all(&mut stuck, b"A") == Err(Failed::Fault));
    assert!(rt; stuck.faults() == 1);
    assert!(rt; write_all(&mut stuck, b"") == Ok(()));
    Ok(())
}

#[test]
fn a_source_is_read_up_to_a_bound(rt: HostRuntime) -> Result<(), Fail> {
    let bytes = vec![in rt.alloc(); 7u8; 5000]?;
    let mut sure = SureSource::new(rt.alloc(), bytes.as_slice())?;
    assert!(rt; read_up_to(rt.alloc(), &mut sure, 4)?.as_bytes() == [7, 7, 7, 7].as_slice());
    assert!(rt; sure.left().len() == 4996);
    assert!(rt; !sure.met_end());
    assert!(rt; read_up_to(rt.alloc(), &mut sure, 6000)?.len() == 4996);
    assert!(rt; sure.met_end());
    assert!(rt; sure.left().is_empty());
    let mut second = MemSource::new(rt.alloc(), b"ABC", &[2])?;
    assert!(rt; read_up_to(rt.alloc(), &mut second, 9) == Err(Failed::Fault));
    assert!(rt; second.faults() == 1);
    Ok(())
}

#[test]
fn want_of_memory_is_passed_on(rt: HostRuntime) {
    assert!(rt; Failed::from(OutOfMemory) == Failed::NoMemory);
}

#[test]
fn words_spell_numbers(rt: HostRuntime) {
    for (word, most, number) in [
        (b"0".as_slice(), 0, Some(0)),
        (b"8192".as_slice(), 8_192, Some(8_192)),
        (b"8193".as_slice(), 8_192, None),
        (b"4294967295".as_slice(), u32::MAX, Some(u32::MAX)),
        (b"4294967296".as_slice(), u32::MAX, None),
        (b"".as_slice(), 9, None),
        (b"00".as_slice(), 9, None),
        (b"01".as_slice(), 9, None),
        (b"+1".as_slice(), 9, None),
        (b"1 ".as_slice(), 9, None),
        (b"\xC3\xA9".as_slice(), 9, None),
    ] {
        assert_eq!(rt; parse_number(word, most), number);
    }
    for (word, number) in [
        (b"32767".as_slice(), Some(32_767)),
        (b"-32768".as_slice(), Some(-32_768)),
        (b"0".as_slice(), Some(0)),
        (b"32768".as_slice(), None),
        (b"-32769".as_slice(), None),
        (b"-0".as_slice(), None),
        (b"-".as_slice(), None),
    ] {
        assert_eq!(rt; parse_signed(word), number);
    }
}

#[test]
fn spaces_part_words(rt: HostRuntime) {
    let mut words = Words::of(b"key  1");
    assert_eq!(rt; words.next_word(), Some(b"key".as_slice()));
    assert_eq!(rt; words.next_word(), Some(b"".as_slice()));
    assert_eq!(rt; words.next_word(), Some(b"1".as_slice()));
    assert_eq!(rt; words.next_word(), None);
    assert_eq!(rt; trim(b"  a b "), b"a b".as_slice());
    assert_eq!(rt; trim_start(b"  a b "), b"a b ".as_slice());
    assert_eq!(rt; trim_end(b"  "), b"".as_slice());
}

#[test]
fn a_link_notes_what_it_does(rt: HostRuntime) -> Result<(), Fail> {
    let host = Addr { ip: 1, port: 2 };
    let client = Addr { ip: 3, port: 4 };
    let mut link = MemLink::new(rt.alloc(), &[3])?;
    let mut into = [0u8; MOST_ON_LINK];
    link.give(client, b"ab")?;
    assert!(rt; link.put(host, b"xyz") == Ok(()));
    let two = Arrived::Datagram {
        from: client,
        length: 2,
    };
    assert!(rt; link.take(&mut into) == Ok(two));
    assert!(rt; into[..2] == [97, 98]);
    assert!(rt; link.take(&mut into) == Err(Failed::Fault));
    assert!(rt; link.take(&mut into) == Ok(Arrived::Nothing));
    assert!(rt; link.take(&mut into) == Ok(Arrived::Nothing));
    assert!(rt; link.faults() == 1);
    assert!(rt; link.entries().len() == 3);
    Ok(())
}

#[test]
fn a_sure_link_notes_what_it_does(rt: HostRuntime) -> Result<(), Fail> {
    let host = Addr { ip: 1, port: 2 };
    let mut link = SureLink::new(rt.alloc())?;
    let mut into = [0u8; MOST_ON_LINK];
    assert!(rt; link.take(&mut into) == Ok(Arrived::Nothing));
    link.give(host, b"")?;
    let empty = Arrived::Datagram {
        from: host,
        length: 0,
    };
    assert!(rt; link.take(&mut into) == Ok(empty));
    assert!(rt; link.put(host, &[7]) == Ok(()));
    assert!(rt; link.entries().len() == 3);
    Ok(())
}
