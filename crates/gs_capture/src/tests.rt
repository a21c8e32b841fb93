ghost use Rattle.std.specs.Prelude.{◌≡◌, ◌≤◌, [], false, IfOk, IfSome};
ghost use Rattle.std.specs.Arc.{arc_value};
ghost use Rattle.std.specs.List.{AllByRecursion};
ghost use Rattle.gs_capture.specs.Captures.{unread_capture};

use super::*;
use gs_bytes::OutOfMemory;
use gs_tape::{Deltas, Tick, Unit, Units};
use std::alloc::Global;
use std::sync::{Arc, Wait};
use std::test::*;
use std::thread::{Threads, join, yield_now};

fn tick(alloc: Global, number: u32) -> Result<Arc<Tick>, OutOfMemory>
    ensures { IfOk result (λ t. ((arc_value t).number ≡ number) × ((arc_value t).audio ≡ [])) }
{
    let tick = Tick {
        number,
        time: number,
        idr: Unit::copy_of(alloc, b"picture")?,
        deltas: Deltas::from_vec(Vec::new(alloc)),
        audio: Units::from_vec(Vec::new(alloc)),
    };
    match Arc::new(alloc, tick) {
        Ok(tick) => Ok(tick),
        Err(_) => Err(OutOfMemory),
    }
}

// Appends so many ticks.
fn append_all<R: Wait>(rt: &R, alloc: Global, recorder: &mut Recorder, count: u32)
    requires empty { (recorder.old.appended ≡ []) × (recorder.old.refused ≡ false) }
    requires room { (count ≤ recorder.old.most) × (recorder.old.most ≤ 1048576) }
    ensures { recorder.new.capture ≡ recorder.old.capture }
{
    let mut made = 0;
    while made < count {
        let Ok(tick) = tick(alloc, made + 1) else {
            break;
        };
        if recorder.append(rt, tick).is_err() {
            break;
        }
        made += 1;
    }
}

// Whether the viewer reads, in its first 16 ticks, the tick of each number up to this one.
fn has_first<R: Wait>(rt: &R, viewer: &mut Viewer, last: u32) -> bool
    ensures { viewer.new.capture ≡ viewer.old.capture }
{
    let mut all = true;
    for number in 1..last.min(16) {
        let Ok(Some(tick)) = viewer.tick(rt, number) else {
            return false;
        };
        all &= tick.number == number;
    }
    all
}

// Reads until the tick of that number was seen. Answers how many reads were wrong: a tick that isn't above the one
// before, or a list without the ticks that were read before.
fn read_until<R: Wait>(rt: &R, mut viewer: Viewer, count: u32) -> (u32, Viewer)
    ensures { result.1.capture ≡ viewer.capture }
{
    let mut last = 0;
    let mut wrong = 0u32;
    for _ in rt.forever() {
        if last >= count {
            break;
        }
        match viewer.newest(rt, last) {
            Ok(Newest::Tick(tick)) => {
                wrong = wrong.saturating_add(u32::from(tick.number <= last));
                last = tick.number;
                let has_first = has_first(rt, &mut viewer, last);
                wrong = wrong.saturating_add(u32::from(!has_first));
            }
            Ok(Newest::NotYet) => yield_now(),
            Err(_) => wrong = wrong.saturating_add(1),
        }
    }
    (wrong, viewer)
}

// Reads on a thread of its own for each viewer.
fn read_by_two<R: Threads + Wait + Sync>(rt: &R, viewers: (Viewer, Viewer), count: u32) -> u32 {
    let (one, two) = viewers;
    let (one, two) = join(
        rt,
        || read_until(rt, one, count),
        || read_until(rt, two, count),
    );
    one.0.saturating_add(two.0)
}

fn read_by_four<R: Threads + Wait + Sync>(
    rt: &R,
    viewers: ((Viewer, Viewer), (Viewer, Viewer)),
    count: u32,
) -> u32 {
    let (one, two) = viewers;
    let (one, two) = join(
        rt,
        || read_by_two(rt, one, count),
        || read_by_two(rt, two, count),
    );
    one.saturating_add(two)
}

// None where there aren't eight.
fn read_by_eight<R: Threads + Wait + Sync>(
    rt: &R,
    mut viewers: Vec<Viewer>,
    count: u32,
) -> Option<u32> {
    let one = (viewers.pop()?, viewers.pop()?);
    let two = (viewers.pop()?, viewers.pop()?);
    let three = (viewers.pop()?, viewers.pop()?);
    let four = (viewers.pop()?, viewers.pop()?);
    let (one, two) = join(
        rt,
        || read_by_four(rt, (one, two), count),
        || read_by_four(rt, (three, four), count),
    );
    Some(one.saturating_add(two))
}

// Eight viewers read while the recorder appends.
fn record_and_read<R: Threads + Wait + Sync>(
    rt: &R,
    alloc: Global,
    recorder: &mut Recorder,
    viewers: Vec<Viewer>,
    count: u32,
) -> Option<u32>
    requires empty { (recorder.old.appended ≡ []) × (recorder.old.refused ≡ false) }
    requires room { (count ≤ recorder.old.most) × (recorder.old.most ≤ 1048576) }
{
    let (_, wrong) = join(
        rt,
        || -> ()
            requires { (recorder.now.appended ≡ []) × (recorder.now.refused ≡ false) × (count ≤ recorder.now.most)
                × (recorder.now.most ≤ 1048576) }
        { append_all(rt, alloc, recorder, count) },
        || read_by_eight(rt, viewers, count),
    );
    wrong
}

#[test]
fn eight_viewers_read_while_ticks_are_appended(rt: HostRuntime) -> Result<(), Fail> {
    let (mut recorder, viewers) = capture(&rt, rt.alloc(), 10_000, 8, 0)?;
    let wrong = record_and_read(&rt, rt.alloc(), &mut recorder, viewers, 10_000);
    recorder.end(&rt);
    assert_eq!(rt; wrong, Some(0));
    Ok(())
}

// What `newest` answers: the number of its tick, and 0 for none yet.
fn newest<R: Wait>(rt: &R, viewer: &mut Viewer, after: u32) -> Option<u32>
    ensures { viewer.new.capture ≡ viewer.old.capture }
{
    match viewer.newest(rt, after) {
        Ok(Newest::Tick(tick)) => Some(tick.number),
        Ok(Newest::NotYet) => Some(0),
        Err(_) => None,
    }
}

// The number of the tick that `tick` answers, and 0 for none.
fn numbered<R: Wait>(rt: &R, viewer: &mut Viewer, number: u32) -> Option<u32>
    ensures { viewer.new.capture ≡ viewer.old.capture }
{
    match viewer.tick(rt, number) {
        Ok(Some(tick)) => Some(tick.number),
        Ok(None) => Some(0),
        Err(_) => None,
    }
}

// Looks before the first tick, and after so many.
fn look<R: Wait>(
    rt: &R,
    alloc: Global,
    recorder: &mut Recorder,
    mut viewer: Viewer,
    count: u32,
) -> [Option<u32>; 6]
    requires empty { (recorder.old.appended ≡ []) × (recorder.old.refused ≡ false) }
    requires room { (count ≤ recorder.old.most) × (recorder.old.most ≤ 1048576) }
    requires capture { viewer.capture ≡ recorder.old.capture }
{
    let first = newest(rt, &mut viewer, 0);
    append_all(rt, alloc, recorder, count);
    recorder.meet(rt, &mut viewer);
    [
        first,
        newest(rt, &mut viewer, 0),
        newest(rt, &mut viewer, count),
        numbered(rt, &mut viewer, count),
        numbered(rt, &mut viewer, count.saturating_add(1)),
        numbered(rt, &mut viewer, 0),
    ]
}

fn last_of(recorder: &Recorder, mut viewers: Vec<Viewer>) -> Option<Viewer>
    requires { AllByRecursion (λ v. v ≡ unread_capture recorder.now.capture 0) viewers.items }
    ensures { IfSome result (λ v. v.capture ≡ recorder.now.capture) }
{
    viewers.pop()
}

// What the last of two viewers finds.
fn found_after<R: Wait>(rt: &R, alloc: Global, count: u32) -> Option<[Option<u32>; 6]>
    requires { count ≤ 10 }
{
    let (mut recorder, viewers) = capture(rt, alloc, 10, 2, 0).ok()?;
    let found = match last_of(&recorder, viewers) {
        Some(viewer) => Some(look(rt, alloc, &mut recorder, viewer, count)),
        None => None,
    };
    recorder.end(rt);
    found
}

#[test]
fn a_viewer_reads_what_was_appended(rt: HostRuntime) -> Result<(), Fail> {
    for count in [1u32, 3] {
        let found = found_after(&rt, rt.alloc(), count);
        let last = Some(count);
        let none = Some(0);
        assert_eq!(rt; found, Some([none, last, none, last, none, none]));
    }
    Ok(())
}
