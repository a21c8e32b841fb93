// What the frames of a history refer to.

ghost use Rattle.std.specs.Prelude.{◌≡◌, ◌+◌, ◌^◌, ◌≤◌, ◌<◌, List, ◌∷◌, reverse};
ghost use Rattle.gs_refs.specs.History.{frames, reference_of, where_it_refers};
ghost use Rattle.gs_refs.specs.declared.entry.Entry.{Entry};

use gs_refs::Entry;

// how many frames were sent, once the entry follows those that sent this many
pub(crate) fn sent_with(entry: Entry, sent: u64) -> u64
    requires { sent < 2 ^ 63 }
    ensures most { result ≤ sent + 1 }
    ensures count { (h : List Entry) → sent ≡ frames h → result ≡ frames (entry ∷ h) }
{
    match entry {
        Entry::Sent { .. } => sent + 1,
        Entry::Invalid { .. } | Entry::IdrAsked | Entry::Ended { .. } => sent,
    }
}

// the frame that a frame of this kind refers to, if it refers to one
pub(crate) fn reference_named(kind: u8, reference: u32) -> Option<u32>
    ensures { result ≡ where_it_refers kind reference }
{
    if kind == 1 || kind == 5 {
        Some(reference)
    } else {
        None
    }
}

// the reference of a frame, once the entry follows those that sent this many frames and gave it this reference
fn reference_with(entry: Entry, sent: u64, frame: u32, known: Option<u32>) -> Option<u32>
    requires { sent < 2 ^ 63 }
    ensures { (h : List Entry) → sent ≡ frames h → known ≡ reference_of h frame
        → result ≡ reference_of (entry ∷ h) frame }
{
    match entry {
        Entry::Sent {
            kind,
            reference,
            ..
        } => {
            if u64::from(frame) == sent + 1 {
                reference_named(kind, reference)
            } else {
                known
            }
        }
        Entry::Invalid { .. } | Entry::IdrAsked | Entry::Ended { .. } => known,
    }
}

// the frame that a frame refers to, if it refers to one
pub(crate) fn reference_among(entries: &[Entry], frame: u32) -> Option<u32>
    ensures { result ≡ reference_of (reverse entries.now) frame }
{
    let mut sent: u64 = 0;
    let mut reference = None;
    for entry in entries {
        reference = reference_with(*entry, sent, frame, reference);
        sent = sent_with(*entry, sent);
    }
    reference
}
