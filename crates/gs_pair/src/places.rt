// Where a frame stands among those handed.

ghost use Rattle.std.specs.Prelude.{ℕ, ◌≡◌, ◌≤◌, ◌<◌, ◌↔◌, true, IsTrue, length};
ghost use Rattle.std.specs.List.Sorted.{IsNonDecreasing, IsStrictlyIncreasing};
ghost use Rattle.gs_pair.specs.References.{AreTogether, StandsBefore};

// whether each of the frames is above the one before it
pub(crate) fn rise(frames: &[u32]) -> bool
    ensures { result ≡ true → IsStrictlyIncreasing frames.now }
{
    frames.is_sorted_by(|earlier, later| earlier < later)
}

// the least place that no cut parts from this one
fn least_together(cuts: &[u32], place: usize) -> usize
    requires rise { IsNonDecreasing cuts.now }
    ensures within { result ≤ place }
    ensures least { (at : ℕ) → result ≤ at ↔ AreTogether cuts.now at place }
{
    let before = cuts.partition_point(|cut| *cut as usize <= place);
    match before.checked_sub(1) {
        Some(last) => cuts[last] as usize,
        None => 0,
    }
}

// whether the frame stands before this place, and no cut parts the two
pub(crate) fn stands_before(handed: &[u32], cuts: &[u32], place: usize, frame: u32) -> bool
    requires rise { IsNonDecreasing cuts.now }
    requires within { place < length handed.now }
    ensures { IsTrue result ↔ StandsBefore handed.now cuts.now place frame }
{
    let from = least_together(cuts, place);
    handed[from..place].contains(&frame)
}

// the same, of frames that rise
pub(crate) fn stands_before_in_order(handed: &[u32], cuts: &[u32], place: usize, frame: u32) -> bool
    requires rise { IsNonDecreasing cuts.now }
    requires order { IsStrictlyIncreasing handed.now }
    requires within { place < length handed.now }
    ensures { IsTrue result ↔ StandsBefore handed.now cuts.now place frame }
{
    let from = least_together(cuts, place);
    handed[from..place].binary_search(&frame).is_ok()
}
