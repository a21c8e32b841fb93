//! What time does to a connection.

ghost use Rattle.std.specs.VecDeque.{deque_len, deque_capacity};
ghost use Rattle.std.specs.Prelude.{◌≡◌, ◌≤◌, false, None, find, map};
ghost use Rattle.std.specs.List.{filter};
ghost use Rattle.std.specs.Option.{option_map};
ghost use Rattle.gs_enet.specs.Record.{PeerRecord, at_moment, is_shut, shut, happened};
ghost use Rattle.gs_enet.specs.Steps.{had_last_wait, name_of, due_again, timed};
ghost use Rattle.gs_enet.specs.Rooms.{Grows};
ghost use Rattle.gs_enet.specs.Standing.{IsPeerOf, held_by};
ghost use Rattle.gs_enet.specs.Controls.{control_held};

use crate::answer::Answer;
use crate::busy::Busy;
use crate::control::Control;
use crate::limits::CONTROL;
use crate::{Peer, PeerEvent, PeerState, holding};
use std::collections::VecDeque;

impl Peer {
    /// Lets time pass, up to that moment in milliseconds. A command that was written and not acknowledged
    /// for its wait is due again: the first wait is `FIRST_WAIT`, and each further one twice the one before,
    /// up to `LONGEST_WAIT`. One that was written `MOST_WRITES` times ends the connection, and an event
    /// tells that it is lost.
    pub fn timer(&mut self, now: u32)
        ensures { (r : PeerRecord) → IsPeerOf self.old r → IsPeerOf self.new (timed now r) }
    {
        self.see(now);
        if self.state.is_shut() {
            return;
        }
        match self.first_lost() {
            Some((channel, number)) => self.lose(channel, number),
            None => self.mark_due(),
        }
    }

    /// Moments never fall: one that is smaller than the last counts as the last.
    pub(crate) fn see(&mut self, now: u32)
        ensures stands { (r : PeerRecord) → IsPeerOf self.old r → IsPeerOf self.new (at_moment now r) }
        ensures grows { Grows 0 0 self.old self.new }
    {
        self.moment = self.moment.max(now);
    }

    /// The first command that had its last wait.
    fn first_lost(&self) -> Option<(u8, u64)>
        ensures { result ≡ option_map name_of (find (had_last_wait self.now.moment) (held_by self.now)) }
    {
        if let Some(control) = &self.control
            && control.is_lost(self.moment)
        {
            return Some((CONTROL, u64::from(control.number)));
        }
        holding::first_lost(&self.channels, self.moment)
    }

    /// Tells that a command is lost, which ends the connection.
    fn lose(&mut self, channel: u8, number: u64)
        requires { is_shut self.old.state ≡ false }
        ensures { (r : PeerRecord) → IsPeerOf self.old r
            → IsPeerOf self.new (shut (happened (PeerEvent.Lost channel number) r)) }
    {
        let Ok(()) = self.waiting.push_back(PeerEvent::Lost { channel, number }) else {
            unreachable!()
        };
        self.state = PeerState::Shut;
        keep_answers_to_disconnect(&mut self.pending);
    }

    /// Makes each command due again that has waited. None had its last wait.
    fn mark_due(&mut self)
        requires { option_map name_of (find (had_last_wait self.old.moment) (held_by self.old)) ≡ None }
        ensures { (r : PeerRecord) → IsPeerOf self.old r
            → IsPeerOf self.new (record r { unacknowledged = map (due_again r.now) r.unacknowledged }) }
    {
        mark_control(&mut self.control, self.moment);
        holding::mark_due(&mut self.channels, self.moment);
        self.busy = Busy::all();
    }
}

/// Drops what isn't owed to a disconnect.
pub fn keep_answers_to_disconnect(pending: &mut VecDeque<Answer>)
    ensures kept { pending.new.items ≡ filter (λ a. a.to_disconnect) pending.old.items }
    ensures len { deque_len pending.new ≤ deque_len pending.old }
    ensures capacity { deque_capacity pending.new ≡ deque_capacity pending.old }
{
    pending.retain(|answer| answer.to_disconnect);
}

/// Makes the command of the control channel due again if it has waited.
fn mark_control(held: &mut Option<Control>, now: u32)
    requires { find (had_last_wait now) (control_held held.old) ≡ None }
    ensures { control_held held.new ≡ map (due_again now) (control_held held.old) }
{
    if let Some(control) = held {
        control.mark_due(now);
    }
}
