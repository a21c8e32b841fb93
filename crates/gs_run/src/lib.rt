//! The run of a schedule over a capture file: what a trial does, and what it writes.
//!
//! The definitions are in specs/, to be read in the order of specs/Lib.antt. A run knows the ticks captured, the
//! moment and its sessions, each a host and its client (`State`). What is done in it is a deed (`Deed`): one function
//! gives the state behind a deed and what is reported of it, or why it is refused (`done`). A line of a schedule stands
//! for a list of deeds (`AreDeeds`), and the run is line after line, up to the first that is refused (`IsRun`). Its
//! text is a line for each report (`run_text`).
//!
//! The crate's functions have no body: each is a law about the definitions, which its contract states.
#![tactic(auto)]

mod laws;
mod limits;

pub use laws::{
    files_are_captures, pumps_advance, pumps_end, runs_are_paired, runs_complete_frames,
    runs_give_events, runs_hand_captured_units, runs_hand_references, runs_have_deeds,
    runs_play_captured_units, runs_report_hosts, runs_report_streams, runs_tell_all_once_closed,
    runs_tell_in_order, runs_tell_users, schedules_have_a_run, schedules_have_one_run,
    whole_runs_hold,
};
pub use limits::{MOST_MADE, MOST_MOMENT, MOST_SESSIONS, SESSION_FPS};
