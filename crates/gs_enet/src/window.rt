//! The window of a channel: a place for each number from the oldest that isn't acknowledged on.

ghost use Rattle.std.specs.Prelude.{◌≡◌, ◌≤◌, ◌<◌, ◌+◌, ◌++◌, ℕ, List, [], ◌∷◌, Option, Some, None, true, false};
ghost use Rattle.std.specs.Prelude.{length, map, take, drop, replicate, position, slice_set, slice_index_or, is_some};
ghost use Rattle.std.specs.List.{list_any, AllZip};
ghost use Rattle.gs_enet.specs.declared.held.Held.{Held};
ghost use Rattle.gs_enet.specs.Window.{passes, held_waited, held_lost, held_due, front_is_held, IsMarkedDue, Writes};

use crate::held::Held;
use std::collections::VecDeque;

/// The place of the first message that had its last wait.
pub fn first_lost(window: &VecDeque<Option<Held>>, now: u32) -> Option<usize>
    ensures { result ≡ position (passes (held_lost now)) window.now.items }
{
    window.iter().position(|slot| match slot {
        Some(held) => held.is_lost(now),
        None => false,
    })
}

/// Empties a place, and tells whether there was a message.
pub fn clear(window: &mut VecDeque<Option<Held>>, place: usize) -> bool
    requires { place < length window.old.items }
    ensures found { result ≡ is_some (slice_index_or window.old.items place None) }
    ensures after { window.new.items ≡ slice_set window.old.items place None }
{
    let slot = &mut window[place];
    slot.take().is_some()
}

/// Drops the empty places at the front, and answers how many.
pub fn skip_empty(window: &mut VecDeque<Option<Held>>) -> usize
    ensures parts { window.old.items ≡ replicate result None ++ window.new.items }
    ensures front { front_is_held window.new.items ≡ true }
{
    let mut skipped = 0;
    while let Some(None) = window.front() {
        window.pop_front();
        skipped += 1;
    }
    skipped
}

/// The place of the first message that is to be written, which isn't before `from`; the window's
/// length where there is none.
pub fn next_due(window: &VecDeque<Option<Held>>, from: usize) -> usize
    requires within { from ≤ length window.now.items }
    requires none { list_any (passes held_due) (take from window.now.items) ≡ false }
    ensures within { result ≤ length window.now.items }
    ensures before { list_any (passes held_due) (take result window.now.items) ≡ false }
    ensures there { result < length window.now.items
        → passes held_due (slice_index_or window.now.items result None) ≡ true }
{
    let mut place = from;
    'places: while place < window.len() {
        if is_due(&window[place]) {
            return place;
        }
        place += 1;
    }
    place
}

fn is_due(slot: &Option<Held>) -> bool
    ensures { result ≡ passes held_due slot.now }
{
    match slot {
        Some(held) => held.due,
        None => false,
    }
}

/// Makes the message in a place due again if it has waited.
fn mark_slot(slot: &mut Option<Held>, now: u32)
    requires { passes (held_lost now) slot.old ≡ false }
    ensures { IsMarkedDue now slot.old slot.new }
{
    if let Some(held) = slot
        && held.has_waited(now)
    {
        held.due = true;
    }
}

/// Makes each message due again that has waited.
pub fn mark_due(window: &mut VecDeque<Option<Held>>, now: u32)
    requires { list_any (passes (held_lost now)) window.old.items ≡ false }
    ensures len { length window.new.items ≡ length window.old.items }
    ensures marks { AllZip (IsMarkedDue now) window.old.items window.new.items }
{
    for place in 0..window.len() {
        mark_slot(&mut window[place], now);
    }
}

/// Notes that the message in a place was written at that moment.
pub fn write(window: &mut VecDeque<Option<Held>>, place: usize, now: u32)
    requires within { place < length window.old.items }
    requires due { passes held_due (slice_index_or window.old.items place None) ≡ true }
    ensures { Writes now window.old.items place window.new.items }
{
    if let Some(held) = &mut window[place] {
        held.writes += 1;
        held.written = now;
        held.due = false;
    }
}
