// The datagrams of audio units, on a link.

ghost use Rattle.std.specs.Prelude.{ℕ, ◌≡◌, ◌≤◌, ◌+◌, ◌++◌, List, All, length, OnErr, OnOk};
ghost use Rattle.std.specs.List.{flat_map};
ghost use Rattle.gs_bytes.specs.Link.{IsCountedLink};
ghost use Rattle.gs_rtp.specs.Audio.{units_end};
ghost use Rattle.gs_audio.specs.Sending.{HasPushed, last_datagrams};
ghost use Rattle.gs_host_core.specs.Puts.{PutsAll, PutsFront, link_told};
ghost use Rattle.gs_host_core.specs.Sounds.{sound_behind};

use gs_audio::AudioSender;
use gs_bytes::{Addr, Failed, Link};
use gs_rtp::DATAGRAM_GREATEST;
use gs_tape::{Tick, Unit};
use std::sync::Arc;

// Puts the datagrams that are ready, as many as there are.
fn put_ready<L: Link>(
    sender: &AudioSender,
    ready: u32,
    link: &mut L,
    to: Addr,
) -> Result<(), Failed>
    requires { ready ≡ sender.now.ready }
    ensures whole { (units : List (List ℕ)) → HasPushed sender.now units
        → length (last_datagrams sender.now.settings units) ≡ ready
        → OnOk result (PutsAll (link_told L.Link link.old) (link_told L.Link link.new) to
        (last_datagrams sender.now.settings units)) }
    ensures front { (units : List (List ℕ)) → HasPushed sender.now units
        → length (last_datagrams sender.now.settings units) ≡ ready
        → OnErr result (PutsFront (link_told L.Link link.old) (link_told L.Link link.new) to
        (last_datagrams sender.now.settings units)) }
    ensures counted { IsCountedLink (L.faults link.old) (L.faults link.new) result }
{
    let mut out = [0; DATAGRAM_GREATEST];
    'ready: for k in 0..ready {
        let length = sender.datagram(k, &mut out);
        link.put(to, &out[..length])?;
    }
    Ok(())
}

// Puts the datagrams of units, one behind the other.
pub(crate) fn put_units<L: Link>(
    sender: &mut AudioSender,
    units: &[Unit],
    link: &mut L,
    to: Addr,
) -> Result<(), Failed>
    requires sizes { All (λ unit. length unit ≡ sender.old.settings.audio) units.now }
    requires few { sender.old.pushed + length units.now ≤ units_end }
    ensures settings { sender.new.settings ≡ sender.old.settings }
    ensures count { sender.new.pushed ≤ sender.old.pushed + length units.now }
    ensures pushed { (before : List (List ℕ)) → HasPushed sender.old before
        → OnOk result (HasPushed sender.new (before ++ units.now)) }
    ensures whole { (before : List (List ℕ)) → HasPushed sender.old before
        → OnOk result (PutsAll (link_told L.Link link.old) (link_told L.Link link.new) to
        (sound_behind sender.old.settings before units.now)) }
    ensures front { (before : List (List ℕ)) → HasPushed sender.old before
        → OnErr result (PutsFront (link_told L.Link link.old) (link_told L.Link link.new) to
        (sound_behind sender.old.settings before units.now)) }
    ensures counted { IsCountedLink (L.faults link.old) (L.faults link.new) result }
{
    'units: for unit in units {
        let ready = sender.push(unit.as_bytes());
        put_ready(sender, ready, link, to)?;
    }
    Ok(())
}

// Puts the audio of ticks, one behind the other.
pub(crate) fn put_ticks<L: Link>(
    sender: &mut AudioSender,
    ticks: &[Arc<Tick>],
    link: &mut L,
    to: Addr,
) -> Result<(), Failed>
    requires sizes { All (λ t. All (λ unit. length unit ≡ sender.old.settings.audio) t.value.audio) ticks.now }
    requires few { sender.old.pushed + length (flat_map (λ t. t.value.audio) ticks.now) ≤ units_end }
    ensures settings { sender.new.settings ≡ sender.old.settings }
    ensures count { sender.new.pushed ≤ sender.old.pushed + length (flat_map (λ t. t.value.audio) ticks.now) }
    ensures pushed { (before : List (List ℕ)) → HasPushed sender.old before
        → OnOk result (HasPushed sender.new (before ++ flat_map (λ t. t.value.audio) ticks.now)) }
    ensures whole { (before : List (List ℕ)) → HasPushed sender.old before
        → OnOk result (PutsAll (link_told L.Link link.old) (link_told L.Link link.new) to
        (sound_behind sender.old.settings before (flat_map (λ t. t.value.audio) ticks.now))) }
    ensures front { (before : List (List ℕ)) → HasPushed sender.old before
        → OnErr result (PutsFront (link_told L.Link link.old) (link_told L.Link link.new) to
        (sound_behind sender.old.settings before (flat_map (λ t. t.value.audio) ticks.now))) }
    ensures counted { IsCountedLink (L.faults link.old) (L.faults link.new) result }
{
    'ticks: for tick in ticks {
        put_units(sender, tick.audio.as_slice(), link, to)?;
    }
    Ok(())
}
