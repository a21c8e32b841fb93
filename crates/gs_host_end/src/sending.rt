// What a turn sends, and puts where.

ghost use Rattle.std.specs.Prelude.{◌≡◌, ◌+◌, ◌-◌, ◌≤◌, ◌⊎◌, ◌==◌, List, [], map, All, IfOk, IfSome, if◌then◌else◌};
ghost use Rattle.std.specs.Arc.{arc_value};
ghost use Rattle.std.specs.List.{range_with_len};
ghost use Rattle.gs_tape.specs.Tick as spec;
ghost use Rattle.gs_tape.specs.Tick.{tick_numbered};
ghost use Rattle.gs_tape.specs.Limits.{IsTickWithinLimits};
ghost use Rattle.gs_refs.specs.History.{last_tick};
ghost use Rattle.gs_feed.specs.Feeding.{IsOf, forgotten};
ghost use Rattle.gs_host_core.specs.Hosting.{IsSendable, AreOfCapture, StandsOver, numbers_between};
ghost use Rattle.gs_host_end.specs.Sending.{IsSentOver, SendsNext};

use crate::outbox::Outbox;
use gs_bytes::{Addr, OutOfMemory};
use gs_feed::Feed;
use gs_host_core::{Host, TurnError};
use gs_refs::Sent;
use gs_tape::Tick;
use std::sync::Arc;

/// An outbox has no other end, so that its datagrams need no address.
const NOWHERE: Addr = Addr { ip: 0, port: 0 };

/// The ticks above the last one sent and below the newest, none where no frame was sent.
pub fn ticks_between(feed: &Feed, sent: u32, last: u32) -> &[Arc<Tick>]
    requires { (sent ≡ 0) ⊎ (forgotten feed.now ≤ last) }
    ensures numbers { map (λ t. t.value.number) result.now
        ≡ (if sent == 0 then [] else range_with_len (last + 1) (feed.now.count - (last + 1))) }
    ensures within { All (λ t. IsTickWithinLimits feed.now.tape.audio t.value.number t.value) result.now }
    ensures of { (ticks : List spec.Tick) → IsOf feed.now ticks
        → All (λ t. tick_numbered ticks t.number ≡ Some t) (map arc_value result.now) }
{
    if sent == 0 {
        return &[];
    }
    feed.since(last)
}

/// A host's turn into two outboxes. None is answered, and nothing done, where the tick was sent or the session ended.
pub fn send(
    host: &mut Host,
    newest: &Tick,
    between: &[Arc<Tick>],
    video: &mut Outbox,
    audio: &mut Outbox,
) -> Result<Option<Sent>, OutOfMemory>
    requires newest { IsSendable host.old.settings newest.now }
    requires between { All (λ t. IsSendable host.old.settings t.value) between.now }
    requires numbers { map (λ t. t.value.number) between.now ≡ numbers_between host.old.history newest.now.number }
    requires video { video.old ≡ [] }
    requires audio { audio.old ≡ [] }
    ensures settings { host.new.settings ≡ host.old.settings }
    ensures last { (host.new.history ≡ host.old.history) ⊎ (last_tick host.new.history ≡ newest.now.number) }
    ensures sent { IfOk result (λ sent. SendsNext newest.now host.old host.new sent) }
    ensures over { IfOk result (λ sent. IfSome sent (λ _. (ticks : List spec.Tick)
        → AreOfCapture ticks newest.now (map arc_value between.now) → StandsOver host.old ticks
        → IsSentOver ticks host.old host.new video.new audio.new)) }
{
    match host.turn(newest, between, video, audio, NOWHERE, NOWHERE) {
        Ok(sent) => Ok(Some(sent)),
        Err(TurnError::Ended | TurnError::OldTick { .. }) => Ok(None),
        Err(TurnError::OutOfMemory) => Err(OutOfMemory),
        Err(TurnError::LinkFault) => unreachable!(),
    }
}
