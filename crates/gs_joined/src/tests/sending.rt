// A host that sends one tick after the other.

ghost use Rattle.std.specs.Prelude.{◌≡◌, ◌+◌, ◌≤◌, true, false, IfOk, OnOk, length};
ghost use Rattle.std.specs.List.{All};
ghost use Rattle.gs_bytes.specs.Limits.{most_unit};
ghost use Rattle.gs_rtp.specs.Stream.{StreamSettings};
ghost use Rattle.gs_refs.specs.History.{last_tick};
ghost use Rattle.gs_host_core.specs.Hosting.{IsSendable};

use gs_bytes::{Addr, MOST_UNIT, MemLink};
use gs_host_core::{Act, Host, TurnError};
use gs_refs::Sent;
use gs_rtp::Settings;
use gs_tape::{Delta, Deltas, Tick, Unit, Units};
use std::alloc::Global;
use std::test::Fail;

const VIDEO: Addr = Addr { ip: 1, port: 9 };

const AUDIO: Addr = Addr { ip: 1, port: 11 };

const LAST: u32 = 1_000;

/// The settings of a stream without audio, with a percentage of parity and at least so many parity shards.
pub fn settings(percentage: u8, minimum: u8) -> Result<Settings, Fail>
    ensures { IfOk result (λ settings. settings.audio ≡ 0) }
{
    let settings = Settings::make(1_024, percentage, minimum, 60, 5, 0, 1).ok_or("settings")?;
    if settings.audio != 0 {
        return Err("settings".into());
    }
    Ok(settings)
}

/// Whether no unit is too long.
fn fit(deltas: &[Delta]) -> bool
    ensures { result ≡ true → All (λ d. length d.unit ≤ most_unit) deltas.now }
{
    deltas
        .iter()
        .all(|delta| delta.unit.len() <= MOST_UNIT as usize)
}

/// Units of four bytes against each of the up to eight ticks before one.
fn deltas_of(alloc: Global, number: u32) -> Result<Deltas, Fail>
    ensures { IfOk result (λ deltas. All (λ d. length d.unit ≤ most_unit) deltas) }
{
    let mut deltas = Vec::new(alloc);
    for named in number.saturating_sub(8).max(1)..number {
        let unit = Unit::copy_of(alloc, b"unit")?;
        deltas.push(Delta { named, unit })?;
    }
    if !fit(&deltas) {
        return Err("units".into());
    }
    Ok(Deltas::from_vec(deltas))
}

/// A tick with these units and an IDR unit of five bytes.
fn tick(alloc: Global, number: u32) -> Result<Tick, Fail>
    requires { number ≤ LAST }
    ensures number { IfOk result (λ tick. tick.number ≡ number) }
    ensures sendable { IfOk result (λ tick. (s : StreamSettings) → s.audio ≡ 0 → IsSendable s tick) }
{
    Ok(Tick {
        number,
        time: 0,
        idr: Unit::copy_of(alloc, b"idr--")?,
        deltas: deltas_of(alloc, number)?,
        audio: Units::from_vec(Vec::new(alloc)),
    })
}

// Each call alone, so that its contract stands in no other goal.

fn open(alloc: Global, settings: &Settings) -> Result<Host, Fail>
    requires { settings.now.audio ≡ 0 }
    ensures silent { IfOk result (λ host. host.settings.audio ≡ 0) }
    ensures last { IfOk result (λ host. last_tick host.history ≡ 0) }
{
    Ok(Host::open(alloc, settings)?)
}

fn turn(
    host: &mut Host,
    newest: &Tick,
    video: &mut MemLink,
    audio: &mut MemLink,
) -> Result<Option<Sent>, Fail>
    requires silent { host.old.settings.audio ≡ 0 }
    requires newest { (s : StreamSettings) → s.audio ≡ 0 → IsSendable s newest.now }
    requires next { last_tick host.old.history + 1 ≡ newest.now.number }
    ensures silent { host.new.settings.audio ≡ 0 }
    ensures last { OnOk result (last_tick host.new.history ≡ newest.now.number) }
{
    match host.turn(newest, &[], video, audio, VIDEO, AUDIO) {
        Ok(sent) => Ok(Some(sent)),
        Err(TurnError::LinkFault) => Ok(None),
        Err(error) => Err(error.into()),
    }
}

fn told(host: &mut Host, message: &[u8]) -> Result<Act, Fail>
    ensures settings { host.new.settings ≡ host.old.settings }
    ensures last { OnOk result (last_tick host.new.history ≡ last_tick host.old.history) }
{
    Ok(host.told(message)?)
}

/// A host of a stream without audio, and the last tick that it sent, 0 before the first.
#[derive(Drop)]
pub struct Sending {
    host: Host,
    last: u32,
    /// Whether a call failed, so that it isn't known how far it came.
    lost: bool,
    ghost silent: { host.settings.audio ≡ 0 },
    ghost reached: { lost ≡ false → last_tick host.history ≡ last },
}

impl Sending {
    /// A host that sent nothing.
    pub fn open(alloc: Global, settings: &Settings) -> Result<Sending, Fail>
        requires { settings.now.audio ≡ 0 }
    {
        Ok(Sending {
            host: open(alloc, settings)?,
            last: 0,
            lost: false,
        })
    }

    /// The last tick that it sent.
    pub fn last(&self) -> u32 {
        self.last
    }

    /// Sends the next tick. Answers none where a link failed: the frame counts as sent.
    pub fn next(
        &mut self,
        alloc: Global,
        video: &mut MemLink,
        audio: &mut MemLink,
    ) -> Result<Option<Sent>, Fail> {
        if self.lost || self.last >= LAST {
            return Err("the end".into());
        }
        let newest = tick(alloc, self.last + 1)?;
        match turn(&mut self.host, &newest, video, audio) {
            Ok(sent) => {
                self.last += 1;
                Ok(sent)
            }
            Err(failed) => {
                self.lost = true;
                Err(failed)
            }
        }
    }

    /// Tells the host a message.
    pub fn told(&mut self, message: &[u8]) -> Result<Act, Fail> {
        match told(&mut self.host, message) {
            Ok(act) => Ok(act),
            Err(failed) => {
                self.lost = true;
                Err(failed)
            }
        }
    }
}
