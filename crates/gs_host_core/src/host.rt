// A host of one session.

ghost use Rattle.std.specs.Prelude.{◌≡◌};

use crate::act::{Act, act_of};
use crate::error::{ToldError, TurnError};
use crate::put::put_frame;
use crate::sound::{put_ticks, put_units};
use crate::unit::unit_of;
use gs_audio::AudioSender;
use gs_bytes::{Addr, Failed, Link, OutOfMemory};
use gs_refs::{Refs, Sent};
use gs_rtp::Settings;
use gs_split::Splitter;
use gs_tape::Tick;
use std::alloc::Global;
use std::marker::Model;
use std::sync::Arc;

/// The host of one session: its history, and what makes the datagrams of its two streams. A contract sees the stream's
/// settings, the history, the newest entry first, and how far the two streams are.
#[derive(Drop)]
pub struct Host {
    refs: Refs,
    splitter: Splitter,
    audio: AudioSender,
}

impl Model for Host {
    ghost use Rattle.gs_split.specs.Splitting.{next_count};
    ghost use Rattle.gs_host_core.specs.Hosting.{Hosting, IsHostingSound};

    ghost Value = { Hosting };

    ghost view = { λ h. record {
      settings = h.splitter.settings;
      history = h.refs.history;
      count = next_count h.splitter;
      audio = h.audio;
    } };

    ghost invariant = { λ h. IsHostingSound h.splitter.settings h.refs.history h.audio };
}

impl Host {
    ghost use Rattle.std.specs.Prelude.{◌+◌, ◌*◌, ◌%◌, ◌^◌, ◌≤◌, ◌<◌, ◌⊎◌, List, [], ◌∷◌, length, map, All, Err, Some};
    ghost use Rattle.std.specs.Prelude.{IfOk, OnOk, OnErr};
    ghost use Rattle.std.specs.Arc.{arc_value};
    ghost use Rattle.gs_rtp.specs.Limits.{most_frame};
    ghost use Rattle.gs_rtp.specs.Stream.{numbers_of};
    ghost use Rattle.gs_tape.specs.Limits.{most_count, most_ticks};
    ghost use Rattle.gs_tape.specs.Tick as spec;
    ghost use Rattle.gs_tape.specs.Tick.{tick_numbered};
    ghost use Rattle.gs_refs.specs.declared.entry.Entry.{Entry};
    ghost use Rattle.gs_refs.specs.Answers.{next_sent, sent_entry, choose_answer};
    ghost use Rattle.gs_refs.specs.Choice.{IsLegal};
    ghost use Rattle.gs_refs.specs.History.{frames, last_tick};
    ghost use Rattle.gs_stream.specs.Video.{video_stream};
    ghost use Rattle.gs_stream.specs.Audio.{audio_stream, audio_units};
    ghost use Rattle.gs_host_core.specs.declared.error.TurnError.TheVariants as turn_error;
    ghost use Rattle.gs_host_core.specs.declared.error.ToldError.TheVariants as told_error;
    ghost use Rattle.gs_host_core.specs.declared.act.Act.TheVariants as the_act;
    ghost use Rattle.gs_host_core.specs.Acts.{IsActTold, HasActButton};
    ghost use Rattle.gs_host_core.specs.ActOf.{act_of};
    ghost use Rattle.gs_host_core.specs.Errors.{IsCountedTurn, turn_answer};
    ghost use Rattle.gs_refs.specs.declared.error.ChooseError.{ChooseError};
    ghost use Rattle.gs_host_core.specs.Hosting.{AreOfCapture, IsSendable, IsTurn, SendsTick, StandsOver};
    ghost use Rattle.gs_host_core.specs.Hosting.{numbers_between};
    ghost use Rattle.gs_host_core.specs.Puts.{Gains, GainsFront, link_told};
    ghost use Rattle.gs_host_core.specs.Turning.{IsSentInPart, IsSentWhole};
    ghost use Rattle.gs_audio.specs.Sending.{HasPushed};
    ghost use Rattle.gs_bytes.specs.Link.{IsCountedLink};
    ghost use Rattle.std.specs.List.{flat_map};

    /// The host of a session of these settings, of which nothing was sent.
    pub fn open(alloc: Global, settings: &Settings) -> Result<Host, OutOfMemory>
        ensures settings { IfOk result (λ host. host.settings ≡ numbers_of settings.now) }
        ensures history { IfOk result (λ host. host.history ≡ []) }
        ensures stands { IfOk result (λ host. (ticks : List spec.Tick) → StandsOver host ticks) }
    {
        Ok(Host {
            refs: Refs::new(alloc),
            splitter: Splitter::new(alloc, settings)?,
            audio: AudioSender::new(alloc, settings)?,
        })
    }

    /// Sends the newest tick of a capture, and the audio of the ticks since the last one sent: puts the datagrams of
    /// its frame to one address, and then those of the audio to the other. `between` are the ticks above the last one
    /// sent and below the newest; there are none at the first turn, which sends the audio of its own tick alone.
    pub fn turn<L: Link>(
        &mut self,
        newest: &Tick,
        between: &[Arc<Tick>],
        video: &mut L,
        audio: &mut L,
        video_to: Addr,
        audio_to: Addr,
    ) -> Result<Sent, TurnError>
        requires newest { IsSendable self.old.settings newest.now }
        requires between { All (λ t. IsSendable self.old.settings t.value) between.now }
        requires numbers { map (λ t. t.value.number) between.now ≡ numbers_between self.old.history newest.now.number }

        // What is answered, unless a link fails or an allocation does. The fault of a link is counted.
        ensures answer { (result ≡ turn_answer self.old.history newest.now)
            ⊎ ((result ≡ Err turn_error.LinkFault) ⊎ (result ≡ Err turn_error.OutOfMemory)) }
        ensures counted { IsCountedTurn (L.faults video.old) (L.faults video.new)
            (L.faults audio.old) (L.faults audio.new) result }

        // What stands then. What is refused leaves all as it was. Where a link fails the frame stands in the history.
        ensures settings { self.new.settings ≡ self.old.settings }
        ensures sent { IfOk result (λ sent. sent ≡ next_sent self.old.history newest.now) }
        ensures history { IfOk result (λ sent. self.new.history ≡ sent_entry sent ∷ self.old.history) }
        ensures refused { (e : ChooseError) → choose_answer self.old.history newest.now ≡ Err e
            → (self.new ≡ self.old) × (video.new ≡ video.old) × (audio.new ≡ audio.old) }
        ensures put { (result ≡ Err turn_error.LinkFault)
            → self.new.history ≡ sent_entry (next_sent self.old.history newest.now) ∷ self.old.history }
        ensures memory { (result ≡ Err turn_error.OutOfMemory)
            → ((self.new ≡ self.old) × (video.new ≡ video.old) × (audio.new ≡ audio.old))
            ⊎ (self.new.history ≡ sent_entry (next_sent self.old.history newest.now) ∷ self.old.history) }
        ensures legal { (ticks : List spec.Tick) → tick_numbered ticks newest.now.number ≡ Some newest.now
            → IsLegal ticks self.old.history → IsLegal ticks self.new.history }

        // Over every capture that has these ticks, at a host that stands for its history over it: the links gain what
        // the history's streams gain, whole, and the host stands again; where the turn failed, a front of it.
        ensures whole { (ticks : List spec.Tick) → AreOfCapture ticks newest.now (map arc_value between.now)
            → StandsOver self.old ticks → OnOk result (IsSentWhole ticks self.old self.new video_to audio_to
            (link_told L.Link video.old) (link_told L.Link video.new) (link_told L.Link audio.old)
            (link_told L.Link audio.new)) }
        ensures part { (ticks : List spec.Tick) → AreOfCapture ticks newest.now (map arc_value between.now)
            → StandsOver self.old ticks → OnErr result (IsSentInPart ticks self.old self.new video_to audio_to
            (link_told L.Link video.old) (link_told L.Link video.new) (link_told L.Link audio.old)
            (link_told L.Link audio.new)) }
    {
        let sent = self.choose(newest)?;
        self.put_video(newest, &sent, video, video_to)?;
        self.put_audio(newest, between, audio, audio_to)?;
        Ok(sent)
    }

    // Sends a tick: the choice joins the history.
    fn choose(&mut self, newest: &Tick) -> Result<Sent, TurnError>
        requires { newest.now.number ≤ most_ticks }
        ensures answer { (result ≡ turn_answer self.old.history newest.now) ⊎ (result ≡ Err turn_error.OutOfMemory) }
        ensures sent { IfOk result (λ sent. sent ≡ next_sent self.old.history newest.now) }
        ensures above { IfOk result (λ sent. last_tick self.old.history < newest.now.number) }
        ensures frames { frames self.old.history ≤ last_tick self.old.history }
        ensures units { self.old.audio.pushed ≤ most_count * last_tick self.old.history }
        ensures ok { IfOk result (λ sent. self.new ≡ record self.old { history = sent_entry sent ∷ self.old.history }) }
        ensures legal { (ticks : List spec.Tick) → tick_numbered ticks newest.now.number ≡ Some newest.now
            → IsLegal ticks self.old.history → IsLegal ticks self.new.history }
        ensures err { OnErr result (self.new ≡ self.old) }
    {
        self.refs.reserve(1)?;
        Ok(self.refs.choose(newest)?)
    }

    // Puts the datagrams of the frame that was sent last, which the history's stream gains.
    fn put_video<L: Link>(
        &mut self,
        newest: &Tick,
        sent: &Sent,
        video: &mut L,
        to: Addr,
    ) -> Result<(), Failed>
        requires newest { IsSendable self.old.settings newest.now }
        requires sent { (h : List Entry) × (sent.now ≡ next_sent h newest.now) × (frames h < most_frame) }
        ensures settings { self.new.settings ≡ self.old.settings }
        ensures history { self.new.history ≡ self.old.history }
        ensures audio { self.new.audio ≡ self.old.audio }
        ensures count { (ticks : List spec.Tick) (h : List Entry) → SendsTick ticks h newest.now sent.now
            → length (video_stream self.old.settings ticks h) % 2 ^ 32 ≡ self.old.count
            → length (video_stream self.old.settings ticks (sent_entry sent.now ∷ h)) % 2 ^ 32 ≡ self.new.count }
        ensures whole { (ticks : List spec.Tick) (h : List Entry) → SendsTick ticks h newest.now sent.now
            → length (video_stream self.old.settings ticks h) % 2 ^ 32 ≡ self.old.count
            → OnOk result (Gains (link_told L.Link video.old) (link_told L.Link video.new) to
            (video_stream self.old.settings ticks h) (video_stream self.old.settings ticks (sent_entry sent.now ∷ h))) }
        ensures front { (ticks : List spec.Tick) (h : List Entry) → SendsTick ticks h newest.now sent.now
            → length (video_stream self.old.settings ticks h) % 2 ^ 32 ≡ self.old.count
            → OnErr result (GainsFront (link_told L.Link video.old) (link_told L.Link video.new) to
            (video_stream self.old.settings ticks h) (video_stream self.old.settings ticks (sent_entry sent.now ∷ h))) }
        ensures counted { IsCountedLink (L.faults video.old) (L.faults video.new) result }
    {
        let unit = unit_of(newest, sent);
        let datagrams = self.splitter.load(sent.frame, sent.kind, newest.time, unit);
        put_frame(&mut self.splitter, datagrams, unit, video, to)
    }

    // Puts the audio of ticks, and of the newest behind them, which the history's stream gains.
    fn put_audio<L: Link>(
        &mut self,
        newest: &Tick,
        between: &[Arc<Tick>],
        audio: &mut L,
        to: Addr,
    ) -> Result<(), Failed>
        requires sizes { All (λ t. All (λ unit. length unit ≡ self.old.settings.audio) t.value.audio) between.now }
        requires size { All (λ unit. length unit ≡ self.old.settings.audio) newest.now.audio }
        requires few { self.old.audio.pushed + (length (flat_map (λ t. t.value.audio) between.now)
            + length newest.now.audio) ≤ most_count * last_tick self.old.history }
        ensures settings { self.new.settings ≡ self.old.settings }
        ensures history { self.new.history ≡ self.old.history }
        ensures count { self.new.count ≡ self.old.count }
        ensures pushed { (ticks : List spec.Tick) (h : List Entry)
            → IsTurn ticks h newest.now (map arc_value between.now)
            → HasPushed self.old.audio (audio_units ticks h) → OnOk result (HasPushed self.new.audio
            (audio_units ticks (sent_entry (next_sent h newest.now) ∷ h))) }
        ensures whole { (ticks : List spec.Tick) (h : List Entry)
            → IsTurn ticks h newest.now (map arc_value between.now)
            → HasPushed self.old.audio (audio_units ticks h)
            → OnOk result (Gains (link_told L.Link audio.old) (link_told L.Link audio.new) to
            (audio_stream self.old.settings ticks h)
            (audio_stream self.old.settings ticks (sent_entry (next_sent h newest.now) ∷ h))) }
        ensures front { (ticks : List spec.Tick) (h : List Entry)
            → IsTurn ticks h newest.now (map arc_value between.now)
            → HasPushed self.old.audio (audio_units ticks h)
            → OnErr result (GainsFront (link_told L.Link audio.old) (link_told L.Link audio.new) to
            (audio_stream self.old.settings ticks h)
            (audio_stream self.old.settings ticks (sent_entry (next_sent h newest.now) ∷ h))) }
        ensures counted { IsCountedLink (L.faults audio.old) (L.faults audio.new) result }
    {
        put_ticks(&mut self.audio, between, audio, to)?;
        put_units(&mut self.audio, newest.audio.as_slice(), audio, to)
    }

    /// Does what a message of the client asks for, and answers its act. A range of frames that weren't sent ends the
    /// session.
    pub fn told(&mut self, message: &[u8]) -> Result<Act, ToldError>
        // The history has the entry of the message's act, unless an allocation failed, which changes nothing.
        ensures told { IsActTold self.old.history self.new.history (act_of message.now) result
            ⊎ ((result ≡ Err told_error.OutOfMemory) × (self.new ≡ self.old)) }
        ensures act { IfOk result (λ act. (act ≡ act_of message.now) × HasActButton act) }

        // What stands then.
        ensures settings { self.new.settings ≡ self.old.settings }
        ensures stands { (ticks : List spec.Tick) → StandsOver self.old ticks → StandsOver self.new ticks }
        ensures legal { (ticks : List spec.Tick) → IsLegal ticks self.old.history → IsLegal ticks self.new.history }
    {
        let act = act_of(message);
        self.apply(act)
    }

    // Does what an act asks for, and answers it.
    fn apply(&mut self, act: Act) -> Result<Act, ToldError>
        ensures told { IsActTold self.old.history self.new.history act result
            ⊎ ((result ≡ Err told_error.OutOfMemory) × (self.new ≡ self.old)) }
        ensures same { IfOk result (λ done. done ≡ act) }
        ensures settings { self.new.settings ≡ self.old.settings }
        ensures stands { (ticks : List spec.Tick) → StandsOver self.old ticks → StandsOver self.new ticks }
        ensures legal { (ticks : List spec.Tick) → IsLegal ticks self.old.history → IsLegal ticks self.new.history }
    {
        match act {
            Act::Invalidate { first, last } => self.invalidate(first, last),
            Act::AskIdr => self.ask_idr(),
            Act::Input(_) | Act::Nothing => Ok(act),
        }
    }

    // Takes a range of frames as invalid.
    fn invalidate(&mut self, first: i64, last: i64) -> Result<Act, ToldError>
        ensures told { IsActTold self.old.history self.new.history (the_act.Invalidate first last) result
            ⊎ ((result ≡ Err told_error.OutOfMemory) × (self.new ≡ self.old)) }
        ensures same { IfOk result (λ done. done ≡ the_act.Invalidate first last) }
        ensures settings { self.new.settings ≡ self.old.settings }
        ensures stands { (ticks : List spec.Tick) → StandsOver self.old ticks → StandsOver self.new ticks }
        ensures legal { (ticks : List spec.Tick) → IsLegal ticks self.old.history → IsLegal ticks self.new.history }
    {
        self.refs.reserve(1)?;
        self.refs.invalidate(first, last)?;
        Ok(Act::Invalidate { first, last })
    }

    // Asks that the next frame is an IDR frame.
    fn ask_idr(&mut self) -> Result<Act, ToldError>
        ensures told { IsActTold self.old.history self.new.history the_act.AskIdr result
            ⊎ ((result ≡ Err told_error.OutOfMemory) × (self.new ≡ self.old)) }
        ensures same { IfOk result (λ done. done ≡ the_act.AskIdr) }
        ensures settings { self.new.settings ≡ self.old.settings }
        ensures stands { (ticks : List spec.Tick) → StandsOver self.old ticks → StandsOver self.new ticks }
        ensures legal { (ticks : List spec.Tick) → IsLegal ticks self.old.history → IsLegal ticks self.new.history }
    {
        self.refs.reserve(1)?;
        self.refs.ask_idr()?;
        Ok(Act::AskIdr)
    }
}
