// Whether handed frames have their references before them.

ghost use Rattle.std.specs.Prelude.{ℕ, ◌≡◌, ◌+◌, ◌^◌, ◌≤◌, ◌<◌, ◌↔◌, IsTrue, List, ◌∷◌, Some, length, reverse};
ghost use Rattle.std.specs.Prelude.{slice_index};
ghost use Rattle.std.specs.List.{All};
ghost use Rattle.std.specs.List.Sorted.{IsNonDecreasing, IsStrictlyIncreasing};
ghost use Rattle.gs_refs.specs.History.{frames, reference_of};
ghost use Rattle.gs_refs.specs.declared.entry.Entry.{Entry};
ghost use Rattle.gs_pair.specs.References.{StandsBefore, ReferencesHeld, ReferencesHeldSince};

use crate::lookup::{reference_among, reference_named, sent_with};
use crate::places::{rise, stands_before, stands_before_in_order};
use gs_refs::Entry;

// whether the frame in this place has the frame that it refers to, if it refers to one, before it
fn is_reference_held(entries: &[Entry], handed: &[u32], cuts: &[u32], place: usize) -> bool
    requires rise { IsNonDecreasing cuts.now }
    requires within { place < length handed.now }
    ensures { IsTrue result ↔ ((reference : ℕ)
        → reference_of (reverse entries.now) (slice_index handed.now place) ≡ Some reference
        → StandsBefore handed.now cuts.now place reference) }
{
    match reference_among(entries, handed[place]) {
        Some(reference) => stands_before(handed, cuts, place, reference),
        None => true,
    }
}

// whether each frame has its reference before it, place by place
fn are_held(entries: &[Entry], handed: &[u32], cuts: &[u32]) -> bool
    requires rise { IsNonDecreasing cuts.now }
    ensures { IsTrue result ↔ ReferencesHeldSince (reverse entries.now) handed.now cuts.now }
{
    for place in 0..handed.len() {
        if !is_reference_held(entries, handed, cuts, place) {
            return false;
        }
    }
    true
}

// whether the frame of this number, where it is handed, has the other before it
fn is_held_in_order(handed: &[u32], cuts: &[u32], number: u64, reference: u32) -> bool
    requires rise { IsNonDecreasing cuts.now }
    requires order { IsStrictlyIncreasing handed.now }
    ensures { IsTrue result ↔ ((place : ℕ) → place < length handed.now → slice_index handed.now place ≡ number
        → StandsBefore handed.now cuts.now place reference) }
{
    let Ok(frame) = u32::try_from(number) else {
        return true;
    };
    match handed.binary_search(&frame) {
        Ok(place) => stands_before_in_order(handed, cuts, place, reference),
        Err(_) => true,
    }
}

// whether the frame that the entry sends behind this many, if it sends one, has its reference before it
fn is_entry_held(entry: Entry, sent: u64, handed: &[u32], cuts: &[u32]) -> bool
    requires most { sent < 2 ^ 63 }
    requires rise { IsNonDecreasing cuts.now }
    requires order { IsStrictlyIncreasing handed.now }
    ensures { (h : List Entry) → sent ≡ frames h → IsTrue result ↔ ((place reference : ℕ) → place < length handed.now
        → slice_index handed.now place ≡ sent + 1 → reference_of (entry ∷ h) (sent + 1) ≡ Some reference
        → StandsBefore handed.now cuts.now place reference) }
{
    match entry {
        Entry::Sent {
            kind,
            reference,
            ..
        } => match reference_named(kind, reference) {
            Some(reference) => is_held_in_order(handed, cuts, sent + 1, reference),
            None => true,
        },
        Entry::Invalid { .. } | Entry::IdrAsked | Entry::Ended { .. } => true,
    }
}

// whether each of the frames, which rise, has its reference before it, entry by entry
fn are_held_in_order(entries: &[Entry], handed: &[u32], cuts: &[u32]) -> bool
    requires rise { IsNonDecreasing cuts.now }
    requires order { IsStrictlyIncreasing handed.now }
    ensures { IsTrue result ↔ ReferencesHeldSince (reverse entries.now) handed.now cuts.now }
{
    let mut sent: u64 = 0;
    for entry in entries {
        if !is_entry_held(*entry, sent, handed, cuts) {
            return false;
        }
        sent = sent_with(*entry, sent);
    }
    true
}

/// Whether each of the handed frames that refers to another has that other earlier among them: a frame of
/// kind 1 or 5 refers to the frame that its entry names. The entries are a session's history in order, the
/// oldest first. For n entries and m frames that rise, as those of a client do, it takes n times log m steps;
/// for others it looks through all of them at each.
pub fn references_held(entries: &[Entry], handed: &[u32]) -> bool
    ensures { IsTrue result ↔ ReferencesHeld (reverse entries.now) handed.now }
{
    references_held_since(entries, handed, &[])
}

/// The same for a client whose decoder was reset: whether each reference stands earlier among the handed
/// frames, and not before the last cut at or below the frame's own place. Places count from 0, so a cut is the
/// number of frames that were handed before its reset; the cuts rise or stay equal.
pub fn references_held_since(entries: &[Entry], handed: &[u32], cuts: &[u32]) -> bool
    requires rise { IsNonDecreasing cuts.now }
    requires within { All (λ cut. cut ≤ length handed.now) cuts.now }
    ensures { IsTrue result ↔ ReferencesHeldSince (reverse entries.now) handed.now cuts.now }
{
    if rise(handed) {
        are_held_in_order(entries, handed, cuts)
    } else {
        are_held(entries, handed, cuts)
    }
}
