//! A capture is made.
ghost use Rattle.std.specs.Prelude.{◌≡◌, ◌≤◌, [], length, drop, IfOk, Some};
ghost use Rattle.std.specs.List.{AllByRecursion};
ghost use Rattle.left_right.specs.Sides.{view};
ghost use Rattle.gs_tape.specs.Limits.{most_audio, most_ticks};
ghost use Rattle.gs_capture.specs.Captures.{opened_capture, unread_capture};
ghost use Rattle.gs_capture.specs.Limits.{most_viewers};

use crate::history;
use crate::published::Published;
use crate::recorder::{CaptureWriter, Recorder, publish};
use crate::sight::Telling;
use crate::viewer::Viewer;
use gs_bytes::OutOfMemory;
use left_right::writer::Writer;
use std::alloc::Global;
use std::sync::Wait;

/// An empty capture for at most `ticks` ticks, whose audio units have `audio` bytes each, with its recorder and so many
/// viewers. It takes the handle since a recorder can be let go only by a call that may wait.
pub fn capture<Rt: Wait>(
    rt: &Rt,
    alloc: Global,
    ticks: u32,
    viewers: u32,
    audio: u16,
) -> Result<(Recorder, Vec<Viewer>), OutOfMemory>
    requires ticks { (1 ≤ ticks) × (ticks ≤ most_ticks) }
    requires viewers { (1 ≤ viewers) × (viewers ≤ most_viewers) }
    requires audio { audio ≤ most_audio }
    ensures recorder { IfOk result (λ made. made.0 ≡ opened_capture made.0.capture audio ticks) }
    ensures viewers { IfOk result (λ made. (length made.1.items ≡ viewers)
        × AllByRecursion (λ v. v ≡ unread_capture made.0.capture audio) made.1.items) }
{
    let all = Vec::with_capacity(alloc, viewers as usize)?;
    let (head, front) = history::open();
    let first = Published::empty(alloc, ticks, audio, front.again())?;
    let second = Published::empty(alloc, ticks, audio, front)?;
    let mut writer = writer(rt, alloc, first, second, viewers)?;
    match add_viewers(&mut writer, all, viewers) {
        Ok(all) => Ok((Recorder::new(writer, head, ticks), all)),
        Err(refused) => {
            drop(writer.take(rt));
            Err(refused)
        }
    }
}

// A writer of two copies, which knows what it published. It has room for so many viewers.
fn writer<Rt: Wait>(
    rt: &Rt,
    alloc: Global,
    first: Published,
    second: Published,
    viewers: u32,
) -> Result<CaptureWriter, OutOfMemory>
    requires viewers { (1 ≤ viewers) × (viewers ≤ most_viewers) }
    requires empty { (first.ticks ≡ []) × (first.history ≡ []) }
    requires alike { first ≡ second }
    ensures shown { IfOk result (λ w. (w.desk.shown.value ≡ first) × (drop w.behind w.log.items ≡ [])) }
    ensures told { IfOk result (λ w. (view w.desk.place).told ≡ Some w.desk.shown.value) }
{
    let writer = Writer::new(alloc, first, second, viewers as usize)?;
    let (writer, published) = publish(writer, rt);
    match published {
        Ok(()) => Ok(writer),
        Err(_) => {
            drop(writer.take(rt));
            Err(OutOfMemory)
        }
    }
}

fn add_viewers(
    writer: &mut CaptureWriter,
    mut all: Vec<Viewer>,
    viewers: u32,
) -> Result<Vec<Viewer>, OutOfMemory>
    requires writer { (view writer.old.desk.place).told ≡ Some writer.old.desk.shown.value }
    requires all { all.items ≡ [] }
    ensures writer { (writer.new.desk.shown.value ≡ writer.old.desk.shown.value)
        × (drop writer.new.behind writer.new.log.items ≡ drop writer.old.behind writer.old.log.items) }
    ensures viewers { IfOk result (λ vs. (length vs.items ≡ viewers) × AllByRecursion (λ v.
        v ≡ unread_capture writer.old.desk.shown.value.book writer.old.desk.shown.value.audio) vs.items) }
{
    let mut made = 0;
    while made < viewers {
        all.push(viewer(writer)?)?;
        made += 1;
    }
    Ok(all)
}

// A new viewer, which is told of its capture.
fn viewer(writer: &mut CaptureWriter) -> Result<Viewer, OutOfMemory>
    requires { (view writer.old.desk.place).told ≡ Some writer.old.desk.shown.value }
    ensures writer { (writer.new.desk.shown ≡ writer.old.desk.shown) × (writer.new.log ≡ writer.old.log)
        × (writer.new.behind ≡ writer.old.behind)
        × ((view writer.new.desk.place).told ≡ Some writer.old.desk.shown.value) }
    ensures viewer { IfOk result
        (λ v. v ≡ unread_capture writer.old.desk.shown.value.book writer.old.desk.shown.value.audio) }
{
    let mut reader = writer.factory().reader()?;
    reader.learn::<Telling>(writer.tell::<Telling>());
    Ok(Viewer::new(reader))
}
