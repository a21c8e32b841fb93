// How far a pump is, and what it delivers next.

ghost use Rattle.std.specs.Prelude.{◌≡◌, false};
ghost use Rattle.std.specs.Option.{option_map};
ghost use Rattle.gs_run.specs.Pump.{is_kept, next_kept, next_above, next_control, next_pumped, moved};
ghost use Rattle.gs_loopback.specs.Standing.{run_marks};
ghost use Rattle.gs_loopback.specs.Running.{run_pumping, pumped_deed, run_delivery};

use crate::delivery::Delivery;
use crate::marks::Marks;

/// Up to which datagram of each kind a pump is, and whether it is the turn of one of the host's control datagrams.
#[derive(Clone, Copy, Debug, PartialEq, Eq)]
pub(crate) struct Pumping {
    at: Marks,
    down_is_next: bool,
}

fn is_kept(every: u64, number: u64) -> bool
    ensures { result ≡ is_kept every number }
{
    every == 0 || number % every != 0
}

// The first number above one and up to another that isn't a multiple of `every`, where that isn't 0.
fn next_kept(every: u64, above: u64, to: u64) -> Option<u64>
    ensures { result ≡ next_kept every above to }
{
    if every == 1 || above >= to {
        return None;
    }
    let next = above + 1;
    if is_kept(every, next) {
        return Some(next);
    }
    next_above(next, to)
}

fn next_above(above: u64, to: u64) -> Option<u64>
    ensures { result ≡ next_above above to }
{
    if above < to { Some(above + 1) } else { None }
}

impl Pumping {
    /// A pump that begins at these marks.
    pub(crate) fn from(marks: Marks) -> Pumping
        ensures { run_pumping result ≡ record { at = run_marks marks; down_is_next = false } }
    {
        Pumping {
            at: marks,
            down_is_next: false,
        }
    }

    // One of the client's control datagrams and one of the host's in turn; one that has none is passed over.
    fn next_control(&self, ends: &Marks) -> Option<Delivery>
        ensures { option_map run_delivery result ≡ next_control (run_pumping self.now) (run_marks ends.now) }
    {
        let up = next_above(self.at.up, ends.up).map(Delivery::Up);
        let down = next_above(self.at.down, ends.down).map(Delivery::Down);
        if self.down_is_next {
            down.or(up)
        } else {
            up.or(down)
        }
    }

    /// What is delivered next, None where nothing is left.
    pub(crate) fn next(&self, every: u64, ends: &Marks) -> Option<Delivery>
        ensures { pumped_deed result ≡ next_pumped every (run_pumping self.now) (run_marks ends.now) }
    {
        if let Some(number) = next_kept(every, self.at.video, ends.video) {
            return Some(Delivery::Video(number));
        }
        if let Some(number) = next_kept(every, self.at.audio, ends.audio) {
            return Some(Delivery::Audio(number));
        }
        self.next_control(ends)
    }

    /// The pump is behind this delivery.
    pub(crate) fn move_behind(&mut self, delivery: Delivery)
        ensures { run_pumping self.new ≡ moved (run_delivery delivery) (run_pumping self.old) }
    {
        match delivery {
            Delivery::Video(number) => self.at.video = number,
            Delivery::Audio(number) => self.at.audio = number,
            Delivery::Up(number) => {
                self.at.up = number;
                self.down_is_next = true;
            }
            Delivery::Down(number) => {
                self.at.down = number;
                self.down_is_next = false;
            }
        }
    }
}
