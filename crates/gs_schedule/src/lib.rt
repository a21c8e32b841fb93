//! The text of a schedule and of what a run writes.
//!
//! A schedule is lines, each of which is one step (`Lines`, `read_line`, `Step`). A run writes a line for
//! each event (`Output`, `output_line`) and ends with an answer that has an exit status and a text
//! (`TrialStatus`). The contracts say that a step is read exactly where the line spells it, that the lines
//! of a source are given in order and whole, however the source cuts them, and that an output line is that
//! of its value; two values have different lines.
#![tactic(auto)]

mod held;
mod keyword;
mod laws;
mod limits;
mod line;
mod lines;
mod lines_error;
mod numbers;
mod output;
mod status;
mod step;
mod step_line;

pub use laws::{line_has_one_output, line_spells_one_step};
pub use limits::{MOST_LINE, MOST_TIME};
pub use line::Line;
pub use lines::Lines;
pub use lines_error::LinesError;
pub use output::{Output, output_line};
pub use status::TrialStatus;
pub use step::Step;
pub use step_line::read_line;

#[cfg(test)]
mod tests;
