//! A channel of one side: the messages given on it that aren't acknowledged, and how many were
//! heard.

ghost use Rattle.std.specs.Prelude.{◌≡◌, ◌≤◌, ◌<◌, ◌+◌, ◌%◌, ◌^◌, [], false, true, length, take};
ghost use Rattle.std.specs.List.{list_any};
ghost use Rattle.gs_enet.specs.Record.{most_message, datagram_room, window_span};
ghost use Rattle.gs_enet.specs.Window.{passes, held_due, front_is_held};

use crate::held::Held;
use crate::limits::WINDOW_SPAN;
use crate::window;
use gs_bytes::{OutOfMemory, Text};
use std::alloc::Global;
use std::collections::VecDeque;

/// A channel. Messages are numbered from 1, without wrap.
#[derive(Drop)]
pub struct Channel {
    /// The number of the window's first place.
    pub first: u64,
    /// A place for each number from `first` to the last one given, empty where it is acknowledged.
    pub window: VecDeque<Option<Held>>,
    /// No message before this place is to be written.
    pub next_due: usize,
    /// How many messages were heard from the other side.
    pub heard: u64,
    ghost counted: { heard + 1 < 2 ^ 64 },
    ghost numbered: { first + length window.items < 2 ^ 64 },
    ghost spans: { length window.items ≤ window_span },
    ghost begins: { front_is_held window.items ≡ true },
    ghost within: { next_due ≤ length window.items },
    ghost none_due: { list_any (passes held_due) (take next_due window.items) ≡ false },
}

impl Channel {
    ghost use Rattle.std.specs.Prelude.{ℕ, None, OnOk, OnErr};
    ghost use Rattle.gs_enet.specs.Channels.{
      next_of,
      is_channel_full,
      SameHeld,
      GivesOne,
      DropsNamed,
      LostIs,
      MarksDue,
      HasDue,
      WritesFirst,
    };
    ghost use Rattle.gs_enet.specs.Busy.{IsSettled};
    ghost use Rattle.gs_enet.specs.Receive.{distance, is_next, is_behind};
    ghost use Rattle.gs_enet.specs.Items.{WritesMessage};

    pub fn new(alloc: Global) -> Channel
        ensures first { result.first ≡ 1 }
        ensures window { result.window.items ≡ [] }
        ensures heard { result.heard ≡ 0 }
    {
        Channel {
            first: 1,
            window: VecDeque::new(alloc),
            next_due: 0,
            heard: 0,
        }
    }

    /// The number that the next message given gets.
    pub fn next(&self) -> u64
        ensures { result ≡ next_of self.now }
    {
        self.first + self.window.len() as u64
    }

    /// The number of the next message of the other side.
    pub fn expected(&self) -> u64
        ensures { result ≡ self.now.heard + 1 }
    {
        self.heard + 1
    }

    /// How far a number on the wire is ahead of the next message's, modulo 65,536.
    fn distance(&self, number: u16) -> u16
        ensures { result ≡ distance number (self.now.heard + 1) }
    {
        number.wrapping_sub((self.expected() % 65536) as u16)
    }

    /// Whether a message of the other side with that number on the wire is the next one.
    pub fn is_next(&self, number: u16) -> bool
        ensures { result ≡ is_next number (self.now.heard + 1) }
    {
        self.distance(number) == 0 && self.expected() < u64::MAX
    }

    /// Whether a message of the other side with that number on the wire was heard before.
    pub fn is_behind(&self, number: u16) -> bool
        ensures { result ≡ is_behind number (self.now.heard + 1) }
    {
        self.distance(number) >= 32768
    }

    /// Whether no further message can be given.
    pub fn is_full(&self) -> bool
        ensures { result ≡ is_channel_full self.now }
    {
        self.window.len() == WINDOW_SPAN || self.next() == u64::MAX
    }

    /// Adds a message to the window.
    pub fn give(&mut self, bytes: Text) -> Result<(), OutOfMemory>
        requires short { length bytes ≤ most_message }
        requires room { is_channel_full self.old ≡ false }
        ensures given { OnOk result (GivesOne bytes self.old self.new) }
        ensures err { OnErr result (SameHeld self.old self.new) }
    {
        self.window.push_back(Some(Held {
            bytes,
            writes: 0,
            written: 0,
            due: true,
        }))?;
        Ok(())
    }

    /// Drops the message with that number on the wire, and tells whether there was one.
    pub fn acknowledge(&mut self, number: u16) -> bool
        ensures drops { DropsNamed number result self.old self.new }
        ensures settled { IsSettled self.old → IsSettled self.new }
    {
        let oldest = (self.first % 65536) as u16;
        let place = usize::from(number.wrapping_sub(oldest));
        if place >= self.window.len() {
            return false;
        }
        if !window::clear(&mut self.window, place) {
            return false;
        }
        let skipped = window::skip_empty(&mut self.window);
        self.first += skipped as u64;
        self.next_due = self.next_due.saturating_sub(skipped);
        true
    }

    /// The number of the first message that had its last wait.
    pub fn first_lost(&self, now: u32) -> Option<u64>
        ensures { LostIs now self.now result }
    {
        match window::first_lost(&self.window, now) {
            Some(place) => Some(self.first + place as u64),
            None => None,
        }
    }

    /// Makes each message due again that has waited. None had its last wait.
    pub fn mark_due(&mut self, now: u32)
        requires { LostIs now self.old None }
        ensures { MarksDue now self.old self.new }
    {
        window::mark_due(&mut self.window, now);
        self.next_due = 0;
    }

    /// Finds the first message that is to be written, and tells whether there is one.
    pub fn find_due(&mut self) -> bool
        ensures found { result ≡ true → HasDue self.new }
        ensures none { result ≡ false → IsSettled self.new }
        ensures same { SameHeld self.old self.new }
    {
        self.next_due = window::next_due(&self.window, self.next_due);
        self.next_due < self.window.len()
    }

    /// Writes the first message that is to be written from the place on, if it fits, and answers
    /// the place behind it.
    pub fn write(&mut self, index: u8, now: u32, out: &mut [u8], place: usize) -> Option<usize>
        requires due { HasDue self.old }
        requires place { place ≤ datagram_room }
        requires room { datagram_room ≤ length out.old }
        ensures { WritesMessage index now place result self.old self.new out.old out.new }
    {
        let number = self.number_due();
        let Some(held) = &self.window[self.next_due] else {
            unreachable!()
        };
        let Some(end) = held.put(index, number, out, place) else {
            return None;
        };
        self.note(now);
        Some(end)
    }

    /// The number on the wire of the first message that is to be written.
    fn number_due(&self) -> u16
        ensures { result ≡ (self.now.first + self.now.next_due) % 65536 }
    {
        ((self.first + self.next_due as u64) % 65536) as u16
    }

    /// Notes that the first message that is to be written was written at that moment.
    fn note(&mut self, now: u32)
        requires { HasDue self.old }
        ensures { WritesFirst now self.old self.new }
    {
        window::write(&mut self.window, self.next_due, now);
        self.next_due += 1;
    }
}
