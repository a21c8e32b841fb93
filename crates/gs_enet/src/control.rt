//! A command of the control channel that isn't acknowledged yet.

ghost use Rattle.std.specs.Prelude.{◌≡◌, ◌≤◌, ◌<◌, ◌+◌, false, true};
ghost use Rattle.gs_enet.specs.declared.limits.TheConstants.{MOST_WRITES};

use crate::held::wait_after;
use crate::limits::MOST_WRITES;

/// Which command it is.
#[derive(Clone, Copy, Debug, PartialEq, Eq)]
pub enum ControlKind {
    Connect,
    VerifyConnect,
    Disconnect,
}

/// A command, how often and when it was written, and whether it is to be written.
#[derive(Clone, Copy)]
pub struct Control {
    pub kind: ControlKind,
    /// Its number on the control channel (`reliableSequenceNumber`).
    pub number: u16,
    /// How often it was written (`sendAttempts`).
    pub writes: u8,
    /// The moment of the last writing (`sentTime`), in milliseconds.
    pub written: u32,
    pub due: bool,
    ghost small: { number < 65536 },
    ghost few: { writes ≤ MOST_WRITES },
    ghost again: { due ≡ true → writes + 1 ≤ MOST_WRITES },
}

impl Control {
    ghost use Rattle.gs_enet.specs.Record.{fresh, control};
    ghost use Rattle.gs_enet.specs.Steps.{has_waited, had_last_wait, due_again};
    ghost use Rattle.gs_enet.specs.Write.{written_once};
    ghost use Rattle.gs_enet.specs.Controls.{content_of, unacknowledged_control};

    /// A command that is to be written.
    pub fn new(kind: ControlKind, number: u16) -> Control
        ensures { unacknowledged_control result ≡ fresh (content_of kind) control number }
    {
        Control {
            kind,
            number,
            writes: 0,
            written: 0,
            due: true,
        }
    }

    /// Whether the command was written and its wait has passed.
    pub fn has_waited(&self, now: u32) -> bool
        ensures { result ≡ has_waited now (unacknowledged_control self.now) }
    {
        !self.due && u64::from(self.written) + u64::from(wait_after(self.writes)) <= u64::from(now)
    }

    /// Whether the command had its last wait.
    pub fn is_lost(&self, now: u32) -> bool
        ensures { result ≡ had_last_wait now (unacknowledged_control self.now) }
    {
        self.has_waited(now) && self.writes >= MOST_WRITES
    }

    /// Makes the command due again if it has waited.
    pub fn mark_due(&mut self, now: u32)
        requires { had_last_wait now (unacknowledged_control self.old) ≡ false }
        ensures { unacknowledged_control self.new ≡ due_again now (unacknowledged_control self.old) }
    {
        if self.has_waited(now) {
            self.due = true;
        }
    }

    /// Notes that the command was written at that moment.
    pub fn write(&mut self, now: u32)
        requires { self.old.due ≡ true }
        ensures { unacknowledged_control self.new ≡ written_once now (unacknowledged_control self.old) }
    {
        self.writes += 1;
        self.written = now;
        self.due = false;
    }
}
