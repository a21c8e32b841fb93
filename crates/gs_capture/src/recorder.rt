//! The writing end of a capture.
ghost use Rattle.std.specs.Prelude.{◌≡◌, ◌+◌, ◌≤◌, ◌++◌, ◌∷◌, [], false, true, length, drop, fold, Some, OnOk, OnErr};
ghost use Rattle.std.specs.Arc.{arc_value};
ghost use mathlib.Core.List.{IsPrefix};
ghost use Rattle.left_right.specs.Sides.{view};
ghost use Rattle.gs_capture.specs.Captures.{HasAudio, Reads};
ghost use Rattle.gs_capture.specs.Growing.{grown, Follows};
ghost use Rattle.gs_capture.specs.Histories.{book_head};

use crate::appended::Appended;
use crate::history::{Head, add};
use crate::published::Published;
use crate::sight::{Publishing, Recording, Sight};
use crate::viewer::Viewer;
use gs_bytes::OutOfMemory;
use gs_tape::Tick;
use left_right::writer::Writer;
use std::alloc::AllocError;
use std::marker::Model;
use std::sync::{Arc, Wait};

/// What publishes.
pub(crate) type CaptureWriter = Writer<Published, Appended, Sight, Recording>;

/// Appends the ticks of a capture. A contract sees which capture it is, how long its audio units are, how many
/// ticks it may have, those appended, and whether an `append` was refused. It is let go by `end` alone.
pub struct Recorder {
    writer: Option<CaptureWriter>,
    head: Head,
    ticks: u32,
    refused: bool,
}

impl Model for Recorder {
    ghost use Rattle.std.specs.Prelude.{◌≡◌, [], false, true, drop, is_some};
    ghost use Rattle.gs_capture.specs.Captures.{Recorded, nothing};
    ghost use Rattle.gs_capture.specs.Held.{held_or};
    ghost use Rattle.gs_capture.specs.Histories.{book_head};

    ghost Value = { Recorded };

    ghost view = { λ r. record {
      capture = (held_or nothing (λ w. w.desk.shown.value) r.writer).book;
      audio = (held_or nothing (λ w. w.desk.shown.value) r.writer).audio;
      most = r.ticks;
      appended = (held_or nothing (λ w. w.desk.shown.value) r.writer).ticks;
      refused = r.refused;
    } };

    ghost invariant = { λ r. (is_some r.writer ≡ true)
        × (r.head ≡ book_head (held_or nothing (λ w. w.desk.shown.value) r.writer).book)
        × ((held_or nothing (λ w. w.desk.shown.value) r.writer).history
        ≡ (held_or nothing (λ w. w.desk.shown.value) r.writer).ticks) × (r.refused ≡ false
        → held_or [] (λ w. drop w.behind w.log.items) r.writer ≡ []) };
}

// Publishes what is pending.
pub(crate) fn publish<Rt: Wait>(
    writer: CaptureWriter,
    rt: &Rt,
) -> (CaptureWriter, Result<(), AllocError>)
    requires { Follows writer.desk.shown.value
        (fold grown writer.desk.shown.value (drop writer.behind writer.log.items)) }
    ensures ok { OnOk result.1 ((result.0.desk.shown.value ≡ fold grown writer.desk.shown.value
        (drop writer.behind writer.log.items)) × (drop result.0.behind result.0.log.items ≡ [])) }
    ensures told { OnOk result.1 (view result.0.desk.place
        ≡ record (view writer.desk.place) {
          told = Some result.0.desk.shown.value;
          seen = result.0.desk.shown.value.ticks;
        }) }
    ensures err { OnErr result.1 (result.0.desk.shown.value ≡ writer.desk.shown.value) }
{
    writer.publish_as::<Publishing, Rt>(rt)
}

// Appends a tick and publishes it.
fn append<Rt: Wait>(
    mut writer: CaptureWriter,
    head: &Head,
    rt: &Rt,
    tick: Arc<Tick>,
) -> (CaptureWriter, Result<(), OutOfMemory>)
    requires pending { drop writer.behind writer.log.items ≡ [] }
    requires history { (head.now ≡ book_head writer.desk.shown.value.book)
        × (writer.desk.shown.value.history ≡ writer.desk.shown.value.ticks) }
    requires tick { ((arc_value tick).number ≡ length writer.desk.shown.value.ticks + 1)
        × HasAudio writer.desk.shown.value.audio (arc_value tick) }
    ensures ok { OnOk result.1 ((result.0.desk.shown.value
        ≡ record writer.desk.shown.value {
          ticks = writer.desk.shown.value.ticks ++ arc_value tick ∷ [];
          history = writer.desk.shown.value.ticks ++ arc_value tick ∷ [];
        })
        × (drop result.0.behind result.0.log.items ≡ [])) }
    ensures err { OnErr result.1 (result.0.desk.shown.value ≡ writer.desk.shown.value) }
{
    // The recorder alone has the head, so the history is as long as it left it.
    let count = u64::from(tick.number) - 1;
    let Some(front) = add(head, writer.published().front(), count, &tick) else {
        return (writer, Err(OutOfMemory));
    };
    if writer.append(Appended { tick, front }).is_err() {
        return (writer, Err(OutOfMemory));
    }
    let (writer, published) = publish(writer, rt);
    (writer, published.map_err(|_| OutOfMemory))
}

impl Recorder {
    pub(crate) fn new(writer: CaptureWriter, head: Head, ticks: u32) -> Recorder
        requires pending { drop writer.behind writer.log.items ≡ [] }
        requires history { (head ≡ book_head writer.desk.shown.value.book)
            × (writer.desk.shown.value.history ≡ writer.desk.shown.value.ticks) }
        ensures { result ≡ record {
          capture = writer.desk.shown.value.book;
          audio = writer.desk.shown.value.audio;
          most = ticks;
          appended = writer.desk.shown.value.ticks;
          refused = false;
        } }
    {
        Recorder {
            writer: Some(writer),
            head,
            ticks,
            refused: false,
        }
    }

    /// Publishes the tick behind those appended. It may wait for a viewer that stands inside a read. After
    /// want of memory the list is as before, and no further tick is appended.
    pub fn append<Rt: Wait>(&mut self, rt: &Rt, tick: Arc<Tick>) -> Result<(), OutOfMemory>
        requires next { (arc_value tick).number ≡ length self.old.appended + 1 }
        requires room { (arc_value tick).number ≤ self.old.most }
        requires audio { HasAudio self.old.audio (arc_value tick) }
        requires unrefused { self.old.refused ≡ false }
        ensures ok { OnOk result (self.new ≡ record self.old { appended = self.old.appended ++ arc_value tick ∷ [] }) }
        ensures err { OnErr result (self.new ≡ record self.old { refused = true }) }
    {
        let writer = self.writer.take().unwrap();
        let (writer, appended) = append(writer, &self.head, rt, tick);
        match self.writer.replace(writer) {
            None => {}
            Some(_) => unreachable!(),
        }
        self.refused = appended.is_err();
        appended
    }

    /// Reads once more for the viewer, once it has found published all that was appended. The list read begins with
    /// all that it read before, and with all that was appended.
    pub fn meet<Rt: Wait>(&mut self, rt: &Rt, viewer: &mut Viewer)
        requires capture { viewer.old.capture ≡ self.old.capture }
        ensures recorder { self.new ≡ self.old }
        ensures read { Reads viewer.old viewer.new }
        ensures appended { IsPrefix self.old.appended viewer.new.read }
    {
        let Some(writer) = &self.writer else {
            unreachable!()
        };
        viewer.meet(rt, writer.published());
    }

    /// Ends the capture, once its viewers have left their reads. A viewer that reads afterwards waits for ever.
    pub fn end<Rt: Wait>(self, rt: &Rt) {
        let Recorder {
            writer,
            head: _,
            ticks: _,
            refused: _,
        } = self;
        drop(writer.unwrap().take(rt));
    }
}
