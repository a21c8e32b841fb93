// Laws about the datagrams of units and about what is played of them, each proved of the definitions.

ghost use Rattle.gs_audio.specs.PlayedLaws.{PlayedUnitsWereSent, PlayedUnitsRise};
ghost use Rattle.gs_audio.specs.Sending.{AudioDatagramsGrow};

use gs_rtp::audio_header_reads_back;

/// A law: one more unit adds to the datagrams of all units before it those of the last one, and changes none.
pub fn audio_datagrams_grow()
    ensures { AudioDatagramsGrow }
{}

/// A law: whichever of the datagrams of a session's units came, however often and in whatever order, each unit that is
/// played is, byte for byte, the unit of its number. It rests on the law that is called.
pub fn played_units_were_sent()
    ensures { PlayedUnitsWereSent }
{
    audio_header_reads_back();
}

/// A law: whatever came, of any bytes, each unit that is played has a greater number than those played before it.
pub fn played_units_rise()
    ensures { PlayedUnitsRise }
{}
