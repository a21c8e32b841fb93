//! What the recorder and its viewers know of what is published.

use crate::published::Published;
use atomic_table::{Join, Split};
use crossbeam_utils::rule::{Outcome, Protocol};
use gs_tape::Tick;
use std::collections::LinkedList;

/// What one of them knows. No value of it is made.
pub struct Sight {
    /// A state of the capture, once it was told of it.
    pub told: Option<Published>,
    /// The list seen last.
    pub seen: LinkedList<Tick>,
    /// The length of each list read.
    pub reads: LinkedList<u64>,
}

/// The rule: what is published begins with what each has seen.
pub struct Recording;

impl Protocol<Published, Sight> for Recording {
    ghost use Rattle.gs_capture.specs.Sights.{Keeps, unseen};

    ghost holds = { Keeps };

    ghost first = { unseen };
}

/// The recorder publishes.
pub struct Publishing;

impl Outcome<Published, Sight> for Publishing {
    ghost use Rattle.gs_capture.specs.Sights.{Publishes};

    ghost then = { Publishes };
}

/// A viewer reads.
pub struct Seeing;

impl Outcome<Published, Sight> for Seeing {
    ghost use Rattle.gs_capture.specs.Sights.{Sees};

    ghost then = { Sees };
}

/// A viewer looks, and reads nothing.
pub struct Looking;

impl Outcome<Published, Sight> for Looking {
    ghost use Rattle.gs_capture.specs.Sights.{Looks};

    ghost then = { Looks };
}

/// A new viewer is told what the recorder knows.
pub struct Telling;

impl Split<Sight> for Telling {
    ghost left = { λ v. v };

    ghost right = { λ v. v };
}

impl Join<Sight> for Telling {
    ghost use Rattle.gs_capture.specs.Sights.{told_sight, unseen};

    ghost both = { told_sight };

    ghost spent = { unseen };
}
