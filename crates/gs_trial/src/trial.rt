// What a trial knows.

ghost use Rattle.std.specs.Prelude.{◌≤◌, length};
ghost use Rattle.gs_run.specs.Opening.{most_sessions};
ghost use Rattle.gs_run.specs.Refusal.{most_moment};

use gs_feed::Feed;
use gs_loopback::Loopback;
use gs_report::{Detail, Reporter};
use std::alloc::Global;

/// What a trial knows: what was captured, the moment in milliseconds, its sessions, and the text that isn't written
/// yet.
#[derive(Drop)]
pub(crate) struct Trial {
    pub(crate) alloc: Global,
    pub(crate) feed: Feed,
    pub(crate) moment: u32,
    pub(crate) sessions: Vec<Loopback>,
    pub(crate) reporter: Reporter,
    ghost few: { length sessions.items ≤ most_sessions },
    ghost early: { moment ≤ most_moment },
}

impl Trial {
    ghost use Rattle.std.specs.Prelude.{◌≡◌, [], ℕ, List, Option};
    ghost use Rattle.gs_tape.specs.Limits.{most_audio, IsDuration};
    ghost use Rattle.gs_tape.specs.declared.stage.Stage.TheVariants.{Open};
    ghost use Rattle.gs_run.specs.CaptureFile.{CaptureFile};
    ghost use Rattle.gs_run.specs.Session.{start};
    ghost use Rattle.gs_trial.specs.Standing.{IsFeedOf, IsReady, IsTrialOf};

    /// Nothing was captured or done yet.
    pub(crate) fn new(alloc: Global, feed: Feed, detail: Detail) -> Trial
        requires none { feed.count ≡ 0 }
        requires stage { feed.tape.stage ≡ Open }
        requires audio { feed.tape.audio ≤ most_audio }
        requires duration { IsDuration feed.tape.duration }
        ensures stands { (file : CaptureFile) (left : Option (List ℕ)) → IsFeedOf feed file left
            → IsTrialOf result file left start }
        ensures ready { IsReady result }
        ensures feed { result.feed ≡ feed }
        ensures text { result.reporter ≡ record { detail = detail; text = [] } }
    {
        Trial {
            alloc,
            feed,
            moment: 0,
            sessions: Vec::new(alloc),
            reporter: Reporter::new(alloc, detail),
        }
    }
}
