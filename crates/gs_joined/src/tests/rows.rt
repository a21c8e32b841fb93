// Sessions of a host and a client that are joined by hand: the deeds of each, and what comes of them.

use super::joined::{Deed, Joined, are_held, are_held_since, ran};
use super::sending::settings;
use std::alloc::Global;
use std::test::Fail;

/// The second frame is lost.
fn one_loss() -> [Deed; 10] {
    [
        Deed::Turn,
        Deed::Video(1),
        Deed::Turn,
        Deed::Turn,
        Deed::Video(3),
        Deed::Turn,
        Deed::Video(4),
        Deed::Up(3),
        Deed::Turn,
        Deed::Video(5),
    ]
}

#[test]
fn a_lost_frame_is_referred_to_no_more(rt: HostRuntime) -> Result<(), Fail> {
    let joined = ran(rt.alloc(), 1, &one_loss())?;
    let text =
        b"sent 1 1 2 1 0\nhand 1 1 2 5\nsent 1 2 1 2 1\nsent 1 3 1 3 2\nask 1 2 2\nsent 1 4 1 4 3\n\
        invalid 1 2 2\nsent 1 5 5 5 1\nhand 1 5 5 4\n";
    assert!(rt; joined.text.as_slice() == text.as_slice());
    assert!(rt; are_held(&joined.entries, &joined.handed));
    Ok(())
}

/// The second frame and the fourth are lost, and the sixth, which was sent as the second was known to be.
fn first_losses() -> [Deed; 10] {
    [
        Deed::Turn,
        Deed::Video(1),
        Deed::Turn,
        Deed::Turn,
        Deed::Video(3),
        Deed::Turn,
        Deed::Turn,
        Deed::Video(5),
        Deed::Up(3),
        Deed::Turn,
    ]
}

fn later_losses() -> [Deed; 6] {
    [
        Deed::Up(4),
        Deed::Turn,
        Deed::Video(7),
        Deed::Up(5),
        Deed::Turn,
        Deed::Video(8),
    ]
}

fn losses_text() -> &'static [u8] {
    b"sent 1 1 2 1 0\nhand 1 1 2 5\nsent 1 2 1 2 1\nsent 1 3 1 3 2\nask 1 2 2\nsent 1 4 1 4 3\n\
        sent 1 5 1 5 4\nask 1 4 4\ninvalid 1 2 2\nsent 1 6 5 6 1\ninvalid 1 4 4\nsent 1 7 5 7 1\nask 1 6 6\n\
        hand 1 7 5 4\ninvalid 1 6 6\nsent 1 8 5 8 1\nhand 1 8 5 4\n"
}

#[test]
fn a_frame_of_a_loss_is_lost_too(rt: HostRuntime) -> Result<(), Fail> {
    let mut joined = ran(rt.alloc(), 1, &first_losses())?;
    joined.run(&later_losses())?;
    assert!(rt; joined.text.as_slice() == losses_text());
    assert!(rt; are_held(&joined.entries, &joined.handed));
    Ok(())
}

#[test]
fn an_ask_that_comes_too_early_waits(rt: HostRuntime) -> Result<(), Fail> {
    let deeds = first_losses();
    let (early, late) = deeds.split_at(8);
    let mut joined = ran(rt.alloc(), 1, early)?;
    let written = joined.other.wrote();
    joined.run(&[Deed::Up(4)])?;
    assert_eq!(rt; joined.other.wrote(), written);
    joined.run(late)?;
    joined.run(&later_losses())?;
    assert!(rt; joined.text.as_slice() == losses_text());
    assert!(rt; are_held(&joined.entries, &joined.handed));
    Ok(())
}

/// Of four frames the second comes last, and then the decoder is reset. Frames come again before the host is asked.
fn late_frame_and_reset() -> [Deed; 14] {
    [
        Deed::Turn,
        Deed::Turn,
        Deed::Turn,
        Deed::Turn,
        Deed::Video(1),
        Deed::Video(4),
        Deed::Video(3),
        Deed::Video(2),
        Deed::Reset,
        Deed::Turn,
        Deed::Video(5),
        Deed::Up(3),
        Deed::Turn,
        Deed::Video(6),
    ]
}

#[test]
fn frames_wait_and_a_reset_bars_them(rt: HostRuntime) -> Result<(), Fail> {
    let joined = ran(rt.alloc(), 3, &late_frame_and_reset())?;
    let text =
        b"sent 1 1 2 1 0\nsent 1 2 1 2 1\nsent 1 3 1 3 2\nsent 1 4 1 4 3\nhand 1 1 2 5\nhand 1 2 1 4\n\
        hand 1 3 1 4\nhand 1 4 1 4\nreset 1\nsent 1 5 1 5 4\nidr 1\nsent 1 6 2 6 0\nhand 1 6 2 5\n";
    assert!(rt; joined.text.as_slice() == text.as_slice());
    assert!(rt; are_held(&joined.entries, &joined.handed));
    assert!(rt; are_held_since(&joined.entries, &joined.handed, 4));
    Ok(())
}

/// Eight frames of three datagrams, of which each call of the video link puts one, and this call fails. Behind each
/// turn the datagrams come, and what is asked for goes to the host.
fn failing(alloc: Global, call: u64) -> Result<Joined, Fail> {
    let mut joined = Joined::open(alloc, &settings(20, 2)?, 1, &[call])?;
    let mut came = 0;
    let mut read = 2;
    for _ in 0..8_u8 {
        joined.turn()?;
        let put = joined.video.entries().len();
        for number in came..put {
            joined.video(number + 1)?;
        }
        came = put;
        let written = joined.own.wrote();
        for number in read..written {
            joined.up(number + 1)?;
        }
        read = written;
    }
    Ok(joined)
}

/// How many frames are handed where that call of the link fails: a frame of which no datagram was put is lost, and so
/// is the one that refers to it.
fn handed_without(call: u64) -> usize {
    match call {
        22 => 7,
        _ if call % 3 == 1 => 6,
        _ => 8,
    }
}

#[test]
fn a_link_may_fail_at_each_call(rt: HostRuntime) -> Result<(), Fail> {
    for call in 1..25 {
        let joined = failing(rt.alloc(), call)?;
        assert_eq!(rt; joined.video.faults(), 1, "at {call}");
        assert_eq!(rt; joined.handed.len(), handed_without(call), "at {call}");
        assert!(rt; are_held(&joined.entries, &joined.handed), "at {call}");
    }
    Ok(())
}
