use crate::{references_held, references_held_since};
use gs_refs::Entry;

fn sent(tick: u32, kind: u8, reference: u32) -> Entry {
    Entry::Sent {
        tick,
        kind,
        reference,
    }
}

fn re_entry() -> [Entry; 6] {
    [
        sent(1, 2, 0),
        sent(2, 1, 1),
        sent(3, 1, 2),
        sent(4, 1, 3),
        Entry::Invalid { first: 2, last: 2 },
        sent(5, 5, 1),
    ]
}

#[test]
fn tells_whether_references_are_held(rt: HostRuntime) {
    let entries = re_entry();
    let refers_to_zero = [sent(1, 1, 0)];
    for (entries, handed, held) in [
        (&entries[..], &[1, 5][..], true),
        (&entries[..], &[5][..], false),
        (&entries[..], &[5, 1][..], false),
        (&entries[..], &[1, 3][..], false),
        (&entries[..], &[1, 1, 2, 2][..], true),
        (&entries[..], &[][..], true),
        (&refers_to_zero[..], &[1][..], false),
        (&refers_to_zero[..], &[0, 1][..], true),
    ] {
        assert_eq!(rt; references_held(entries, handed), held, "at {handed:?}");
    }
}

#[test]
fn tells_whether_references_are_held_since_the_last_cut(rt: HostRuntime) {
    let entries = re_entry();
    assert_eq!(rt; references_held_since(&entries, &[1, 5], &[0]), true);
    assert_eq!(rt; references_held_since(&entries, &[1, 5], &[1]), false);
    assert_eq!(rt; references_held_since(&entries, &[1, 5], &[2]), true);
    assert_eq!(rt; references_held_since(&entries, &[1, 2, 5], &[0, 3]), true);
    assert_eq!(rt; references_held_since(&entries, &[1, 2, 5], &[0, 2]), false);
    assert_eq!(rt; references_held_since(&entries, &[2, 1, 2], &[1]), false);
    assert_eq!(rt;
        references_held_since(&entries, &[1, 2, 1, 2], &[2, 2]),
        true
    );
}
