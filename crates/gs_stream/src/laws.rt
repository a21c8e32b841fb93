// Laws about the datagrams of a history, each proved of the definitions.

ghost use Rattle.std.specs.Prelude.{List};
ghost use Rattle.gs_rtp.specs.Stream.{StreamSettings};
ghost use Rattle.gs_tape.specs.Tick.{Tick};
ghost use Rattle.gs_stream.specs.Audio.{audio_stream, audio_units};
ghost use Rattle.gs_stream.specs.HandedLaws.{
  HandedFramesWereSent,
  FramesThatCameAreComplete,
  FramesThatCameAreHanded,
  IdrFramesThatCameAreHanded,
};
ghost use Rattle.gs_stream.specs.Paired.{invalid_ranges};
ghost use Rattle.gs_stream.specs.StreamLaws.{OnlyGrows};
ghost use Rattle.gs_stream.specs.Video.{video_stream};

/// Laws: one more entry of a history takes back nothing, neither a datagram that went out nor an audio
/// unit nor a range that was invalid.
pub fn streams_only_grow()
    ensures video { (settings : StreamSettings) (ticks : List Tick) → OnlyGrows (video_stream settings ticks) }
    ensures audio { (settings : StreamSettings) (ticks : List Tick) → OnlyGrows (audio_stream settings ticks) }
    ensures units { (ticks : List Tick) → OnlyGrows (audio_units ticks) }
    ensures invalid { OnlyGrows invalid_ranges }
{}

/// A law: however the datagrams of a history that a host may have were lost, repeated or reordered, and
/// whenever the decoder was reset, each frame that its client is handed was sent, with its kind and, byte for
/// byte, its captured unit.
pub fn handed_frames_were_sent()
    ensures { HandedFramesWereSent }
{}

/// Laws: whichever datagrams of a history were lost and in whatever order the others came, a frame of whose
/// blocks enough distinct datagrams came before any by which it is left is complete from then on and holds what
/// was sent. Once it is settled it is handed, where it isn't barred and is a re-entry frame or follows a handed
/// one; an IDR frame always.
pub fn frames_that_came_are_complete()
    ensures complete { FramesThatCameAreComplete }
    ensures handed { FramesThatCameAreHanded }
    ensures idr { IdrFramesThatCameAreHanded }
{}
