//! What a trial is to do.

/// How much is written of a run.
#[derive(Clone, Copy, Debug, PartialEq, Eq)]
pub enum Detail {
    /// Each line, with the unit behind it that is handed or played.
    Bytes,
    /// Each line alone.
    Brief,
    /// No line but the sums and the last.
    Sums,
}

/// A generated capture: its number, and how many ticks it has.
#[derive(Clone, Copy, Debug, PartialEq, Eq)]
pub struct Generated {
    pub number: u32,
    pub ticks: u32,
}

/// What a trial is to do.
#[derive(Clone, Copy, Debug, PartialEq, Eq)]
pub enum TrialCommand {
    /// Run a schedule over a capture file.
    Script(Detail),
    /// Run the generated schedule over a generated capture.
    Make(Generated),
    /// Write a generated capture.
    Tape(Generated),
}
