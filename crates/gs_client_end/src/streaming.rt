// What a client is given of the streams.

ghost use Rattle.std.specs.Prelude.{◌≡◌, ◌+◌, ◌&&◌, not, is_some, ℕ, List, OnOk, IfOk};
ghost use Rattle.gs_frames.specs.Client.{ClientSettings, Arrival};
ghost use Rattle.gs_client_core.specs.Standing.{IsClientOf};
ghost use Rattle.gs_run.specs.Session.{Part};
ghost use Rattle.gs_run.specs.Streaming.{with_audio};
ghost use Rattle.gs_report.specs.Reporting.{Did};
ghost use Rattle.gs_client_end.specs.Standing.{IsClientEndOf};
ghost use Rattle.gs_client_end.specs.Steps.{IsGiven, Plays, owing_range, owing_idr};
ghost use Rattle.gs_client_end.specs.Outcomes.{TakesVideo, Resets};

use crate::ClientEnd;
use crate::end::REQUEST_CHANNEL;
use crate::reports::{report_ask, report_frames, report_units};
use gs_audio::Played;
use gs_bytes::OutOfMemory;
use gs_client_core::{Client, Taken};
use gs_frames::Range;
use gs_report::Reporter;
use gs_schedule::Output;

/// What a client asked for, and how many frames it handed.
struct Told {
    ask: Option<Range>,
    handed: u64,
}

/// Whether it asks and may not.
fn is_refused(ask: Option<Range>, may_ask: bool) -> bool
    ensures { result ≡ (is_some ask && not may_ask) }
{
    ask.is_some() && !may_ask
}

/// Gives a client a video datagram, and reports what it asks for and what it hands. Answers none where it asks and may
/// not.
fn give_video(
    session: u32,
    client: &mut Client,
    datagram: &[u8],
    may_ask: bool,
    reporter: &mut Reporter,
) -> Result<Option<Told>, OutOfMemory>
    ensures { IfOk result (λ told. (c : ClientSettings) (came : List Arrival) (sound : List (List ℕ))
        → IsClientOf client.old c came sound
        → IsGiven session c came sound datagram.now may_ask told client.new reporter.old reporter.new) }
{
    let Taken { ask, units, .. } = client.take(datagram);
    if is_refused(ask, may_ask) {
        return Ok(None);
    }
    report_ask(session, ask, reporter)?;
    let handed = report_frames(session, units, reporter)?;
    Ok(Some(Told { ask, handed }))
}

/// Gives a client an audio datagram, reports what it plays, and answers how many units that is.
fn give_audio(
    session: u32,
    client: &mut Client,
    datagram: &[u8],
    reporter: &mut Reporter,
) -> Result<u64, OutOfMemory>
    ensures { IfOk result (λ count. (c : ClientSettings) (came : List Arrival) (sound : List (List ℕ))
        → IsClientOf client.old c came sound
        → Plays session c came sound datagram.now count client.new reporter.old reporter.new) }
{
    let Played { first, units } = client.play(datagram);
    report_units(session, first, units, reporter)
}

/// A count with so many more.
fn counted(count: u64, more: u64) -> Result<u64, OutOfMemory>
    ensures { IfOk result (λ sum. sum ≡ count + more) }
{
    count.checked_add(more).ok_or(OutOfMemory)
}

impl ClientEnd {
    /// Takes one more video datagram, of any bytes: what it asks for it owes, and reports it first, and then each frame
    /// that it hands. Answers false where it would ask once more than a channel may have. Then nothing is reported and
    /// nothing more is owed; but its client has the datagram, so that the end stands for no part of a run any more.
    pub fn take_video(
        &mut self,
        datagram: &[u8],
        reporter: &mut Reporter,
    ) -> Result<bool, OutOfMemory>
        ensures { IfOk result (λ took. (session : ℕ) (part : Part) → IsClientEndOf self.old session part
            → TakesVideo session part datagram.now took self.new reporter.old reporter.new) }
    {
        let may_ask = !self.has_made_most(REQUEST_CHANNEL);
        let Some(Told { ask, handed }) = give_video(
            self.session,
            &mut self.client,
            datagram,
            may_ask,
            reporter,
        )?
        else {
            return Ok(false);
        };
        self.owe(ask)?;
        self.sums.handed = counted(self.sums.handed, handed)?;
        Ok(true)
    }

    /// Owes what is asked for.
    fn owe(&mut self, ask: Option<Range>) -> Result<(), OutOfMemory>
        ensures { OnOk result (self.new ≡ owing_range ask self.old) }
    {
        if let Some(range) = ask {
            self.asker.owe(range)?;
            self.owed = counted(self.owed, 1)?;
            self.sums.asks = counted(self.sums.asks, 1)?;
        }
        Ok(())
    }

    /// Takes one more audio datagram, of any bytes, and reports each unit that it plays.
    pub fn take_audio(
        &mut self,
        datagram: &[u8],
        reporter: &mut Reporter,
    ) -> Result<(), OutOfMemory>
        ensures { OnOk result ((session : ℕ) (part : Part) → IsClientEndOf self.old session part
            → Did (IsClientEndOf self.new session) (with_audio session datagram.now part) reporter.old reporter.new) }
    {
        let units = give_audio(self.session, &mut self.client, datagram, reporter)?;
        self.sums.units = counted(self.sums.units, units)?;
        Ok(())
    }

    /// Its decoder loses its state, so that it owes its host an IDR request. Answers false where the client is closed
    /// or lost, or would ask once more than a channel may have.
    pub fn reset(&mut self, reporter: &mut Reporter) -> Result<bool, OutOfMemory>
        ensures { IfOk result (λ done. (session : ℕ) (part : Part) → IsClientEndOf self.old session part
            → Resets session part done self.new reporter.old reporter.new) }
    {
        if !self.is_open() || self.has_made_most(REQUEST_CHANNEL) {
            return Ok(false);
        }
        self.client.reset();
        self.owe_idr()?;
        let reset = Output::Reset {
            session: self.session,
        };
        reporter.report(&reset, None)?;
        Ok(true)
    }

    /// Owes an IDR request.
    fn owe_idr(&mut self) -> Result<(), OutOfMemory>
        ensures { OnOk result (self.new ≡ owing_idr self.old) }
    {
        self.asker.owe_idr()?;
        self.owed = counted(self.owed, 1)?;
        Ok(())
    }
}
