// Entries join a history.

ghost use Rattle.std.specs.Prelude.{◌≡◌, ◌+◌, ◌≤◌, ◌<◌, ℕ, List, [], ◌∷◌, ◌++◌, Option, IsSome, is_some, not, ◌&&◌};
ghost use Rattle.std.specs.Prelude.{◌==◌, vec_len, vec_capacity};
ghost use Rattle.gs_refs.specs.Answers.{sent_entry};
ghost use Rattle.gs_refs.specs.History.{frames, last_tick};
ghost use Rattle.gs_refs.specs.Standing.{KeepsCandidates};
ghost use Rattle.gs_refs.specs.declared.entry.Entry.{Entry};
ghost use Rattle.gs_refs.specs.declared.entry.Entry.TheVariants as entry;

use super::Refs;
use crate::candidate::Candidate;
use crate::candidates::Candidates;
use crate::entry::Entry;
use crate::sent::Sent;

// An entry joins those before it, which have room for it.
fn push(entries: &mut Vec<Entry>, entry: Entry)
    requires { vec_len entries.old < vec_capacity entries.old }
    ensures items { entries.new.items ≡ entries.old.items ++ entry ∷ [] }
    ensures len { vec_len entries.new ≡ vec_len entries.old + 1 }
    ensures capacity { vec_capacity entries.old ≤ vec_capacity entries.new }
{
    entries.push(entry).unwrap();
}

// A frame was sent.
fn keep_sent(candidates: &mut Option<Candidates>, sent: Sent)
    requires { IsSome candidates.old }
    ensures some { is_some candidates.new ≡ is_some candidates.old }
    ensures keeps { (h : List Entry) → sent.frame ≡ frames h + 1 → KeepsCandidates h candidates.old
        → KeepsCandidates (sent_entry sent ∷ h) candidates.new }
{
    let newest = Candidate {
        frame: sent.frame,
        tick: sent.tick,
    };
    if let Some(candidates) = candidates {
        if sent.kind == 2 {
            candidates.restart(newest);
        } else {
            candidates.push(newest);
        }
    }
}

// The frames from this one on aren't valid any more.
fn keep_valid(candidates: &mut Option<Candidates>, first: u32)
    ensures some { is_some candidates.new ≡ is_some candidates.old }
    ensures keeps { (h : List Entry) (last : ℕ) → KeepsCandidates h candidates.old
        → KeepsCandidates (entry.Invalid first last ∷ h) candidates.new }
{
    if let Some(candidates) = candidates {
        candidates.drop_from(first);
    }
}

// Whether an IDR unit is owed behind a frame of this kind.
fn is_still_owed(kind: u8, owed: bool) -> bool
    ensures { result ≡ (not (kind == 2) && owed) }
{
    kind != 2 && owed
}

impl Refs {
    pub(super) fn append_sent(&mut self, sent: Sent)
        requires room { 1 ≤ self.old.spare }
        requires frame { sent.frame ≡ frames self.old.history + 1 }
        requires later { last_tick self.old.history < sent.tick }
        ensures history { self.new.history ≡ sent_entry sent ∷ self.old.history }
        ensures spare { self.old.spare ≤ self.new.spare + 1 }
    {
        keep_sent(&mut self.candidates, sent);
        push(
            &mut self.entries,
            Entry::Sent {
                tick: sent.tick,
                kind: sent.kind,
                reference: sent.reference,
            },
        );
        self.frames = sent.frame;
        self.last_tick = sent.tick;
        self.idr_is_owed = is_still_owed(sent.kind, self.idr_is_owed);
    }

    pub(super) fn append_invalid(&mut self, first: u32, last: u32)
        requires room { 1 ≤ self.old.spare }
        ensures history { self.new.history ≡ entry.Invalid first last ∷ self.old.history }
        ensures spare { self.old.spare ≤ self.new.spare + 1 }
    {
        keep_valid(&mut self.candidates, first);
        push(&mut self.entries, Entry::Invalid { first, last });
    }

    pub(super) fn append_asked(&mut self)
        requires room { 1 ≤ self.old.spare }
        ensures history { self.new.history ≡ entry.IdrAsked ∷ self.old.history }
        ensures spare { self.old.spare ≤ self.new.spare + 1 }
    {
        push(&mut self.entries, Entry::IdrAsked);
        self.idr_is_owed = true;
    }

    pub(super) fn append_end(&mut self, first: i64, last: i64)
        requires room { 1 ≤ self.old.spare }
        ensures history { self.new.history ≡ entry.Ended first last ∷ self.old.history }
        ensures spare { self.old.spare ≤ self.new.spare + 1 }
    {
        push(&mut self.entries, Entry::Ended { first, last });
        self.has_ended = true;
    }
}
