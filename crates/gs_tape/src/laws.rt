// Laws about what a capture file holds, each proved of the definitions.

ghost use Rattle.gs_tape.specs.Laws.{TicksKeepLimits, AudioLengthKeepsLimit, EachTickIsWithinLimits, TicksHoldBytes};
ghost use Rattle.gs_tape.specs.Laws.{FilesAreRead, FaultlessBytesAreFiles};

/// Laws: whatever the bytes, the ticks read from them before the first fault are numbered from 1, their
/// times never fall and have 32 bits, their units, counts and named ticks are within the limits, and their
/// units are lists of bytes.
pub fn ticks_keep_limits()
    ensures ticks { TicksKeepLimits }
    ensures audio_length { AudioLengthKeepsLimit }
    ensures each { EachTickIsWithinLimits }
    ensures bytes { TicksHoldBytes }
{}

/// A law: a file that was written of ticks within the limits is read as these ticks, with no fault.
pub fn files_are_read()
    ensures { FilesAreRead }
{}

/// A law: bytes that are read without a fault are the file of the audio length, duration and ticks that
/// they give, and these are within the limits.
pub fn faultless_bytes_are_files()
    ensures { FaultlessBytesAreFiles }
{}
