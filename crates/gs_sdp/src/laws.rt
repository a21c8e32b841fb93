//! The law of the attribute table.

ghost use Rattle.gs_sdp.specs.Table.{IsReadAgain};

/// The settings that a body announces are read again, over an offer that they fit.
pub fn written_settings_are_read()
    ensures { IsReadAgain }
{}
