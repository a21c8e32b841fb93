//! The attribute lines of a stream's description (RFC 4566, section 5.13): the settings that a
//! client announces over what a host offers.
//!
//! A line is `a=NAME:VALUE`, ended by CR LF or LF. `settings_of` reads the four attributes that
//! this profile has, and names the first one that is out of range or no number. `body_of` writes
//! them, and what it writes is read again as the same settings.
#![tactic(auto)]

mod attributes;
mod body;
mod laws;
mod lines;
mod settings;

pub use attributes::{BadSetting, SettingName};
pub use body::{body_of, push_line};
pub use laws::written_settings_are_read;
pub use lines::last_value;
pub use settings::settings_of;

#[cfg(test)]
mod tests;
