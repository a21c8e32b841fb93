// Laws about frames on the wire, each proved of the definitions.

ghost use Rattle.gs_frames.specs.ImageLaws.{ImageIsRead};
ghost use Rattle.gs_frames.specs.PlanLaws.{PlanCovers};
ghost use Rattle.gs_frames.specs.FrameLaws.{FrameIsReceived};
ghost use Rattle.gs_frames.specs.FillLaws.{DistinctShardsFillBlock};
ghost use Rattle.gs_frames.specs.VerdictLaws.{
  VerdictSaysWhatCounts,
  NoOtherCounts,
  FrameWholeIsExactly,
  WholeBlocksHaveImage,
  OnlyFrameWholeCompletes,
  OnlyOwnFrameCompletes,
};
ghost use Rattle.gs_frames.specs.SettledLaws.{SettledIsGreatest, SettledNeverFalls};
ghost use Rattle.gs_frames.specs.HandedLaws.{
  HandedFramesRise,
  HandedFramesAreExactly,
  ArrivalHandsNewFrames,
  ArrivalHandsFewFrames,
  ResetHandsNothing,
};
ghost use Rattle.gs_frames.specs.AskLaws.{ArrivalAsksNewRange, ArrivalAsksForLost, ArrivalAsksForNothing};
ghost use Rattle.gs_frames.specs.PartLaws.{OtherSsrcChangesNothing};
ghost use Rattle.gs_frames.specs.KeptLaws.{NothingIsKeptAtFirst, LastHandedTellsNext};
ghost use Rattle.gs_frames.specs.Narrow.{
  NarrowClientIsClient,
  NarrowClientSettlesComplete,
  NoResetBarsNothing,
};
ghost use Rattle.gs_frames.specs.CompleteLaws.{CompleteFrameStays, CompleteFrameIsSent, EnoughCompleteFrame};

/// A law: a reader of an image finds the kind and the unit that it was made of.
pub fn image_is_read()
    ensures { ImageIsRead }
{}

/// A law: the blocks of a plan have as many data shards as the frame has packets, at any percentage and
/// minimum of parity.
pub fn plan_covers()
    ensures { PlanCovers }
{}

/// A law: each datagram of a frame, of any of its blocks, data or parity, is received as the shard that it
/// was made of.
pub fn frame_is_received()
    ensures { FrameIsReceived }
{}

/// A law: where a block's frame isn't left and all that came of the block agrees, a block of which as many distinct
/// shards came as it has data shards is whole, whichever they are and however they came.
pub fn distinct_shards_fill_block()
    ensures { DistinctShardsFillBlock }
{}

/// A law: a frame that is complete stays so, and holds the same, whatever comes next.
pub fn complete_frame_stays()
    ensures { CompleteFrameStays }
{}

/// A law: where all that came of a frame is of what was sent, a frame that is complete is the one that was
/// sent, with its kind and, byte for byte, its unit.
pub fn complete_frame_is_sent()
    ensures { CompleteFrameIsSent }
{}

/// A law: where the frame isn't left yet and all that came of it is of what was sent, it is complete
/// once as many distinct datagrams of each of its blocks came as the block has data shards, any of them in
/// any order.
pub fn enough_complete_frame()
    ensures { EnoughCompleteFrame }
{}

/// Laws: a datagram counts exactly where its verdict says so, and the verdict says that a frame became whole
/// exactly where its blocks did. A frame has an image exactly where its blocks are whole, and one becomes
/// complete only with the datagram that makes its own frame whole.
pub fn verdict_says_what_is_whole()
    ensures counts { VerdictSaysWhatCounts }
    ensures no_other { NoOtherCounts }
    ensures whole { FrameWholeIsExactly }
    ensures image { WholeBlocksHaveImage }
    ensures completes { OnlyFrameWholeCompletes }
    ensures own { OnlyOwnFrameCompletes }
{}

/// Laws: it is settled up to the greatest frame up to which each frame is complete or left, and what is settled
/// stays so.
pub fn settled_is_greatest()
    ensures greatest { SettledIsGreatest }
    ensures stays { SettledNeverFalls }
{}

/// Laws: frames are handed by rising index. They are exactly the complete settled frames that aren't barred, and
/// are re-entry frames or follow a handed one.
pub fn handed_frames_are_exactly()
    ensures rise { HandedFramesRise }
    ensures exactly { HandedFramesAreExactly }
{}

/// Laws: what an arrival hands stands behind what was handed, and is as many frames as the window has, at most;
/// a reset hands none. So nothing that was handed is taken back.
pub fn arrival_hands_new_frames()
    ensures new { ArrivalHandsNewFrames }
    ensures few { ArrivalHandsFewFrames }
    ensures reset { ResetHandsNothing }
{}

/// Laws: what an arrival asks for stands behind what was asked for. It asks exactly where a frame that it leaves
/// isn't complete, for the frames from the least such one to the last that it leaves.
pub fn arrival_asks_for_lost()
    ensures new { ArrivalAsksNewRange }
    ensures lost { ArrivalAsksForLost }
    ensures nothing { ArrivalAsksForNothing }
{}

/// A law: datagrams that say another ssrc change neither what is handed nor what is asked for.
pub fn other_ssrc_changes_nothing()
    ensures { OtherSsrcChangesNothing }
{}

/// A law: a client that was given nothing keeps nothing.
pub fn nothing_is_kept_at_first()
    ensures { NothingIsKeptAtFirst }
{}

/// A law: the last frame handed, and whether an IDR frame is awaited, tell whether a frame above the settled ones
/// is handed behind those below it.
pub fn last_handed_tells_next()
    ensures { LastHandedTellsNext }
{}

/// Laws of a client with a window of one frame and no resets: each complete frame is settled, none is barred,
/// and what it hands and asks for needs neither word.
pub fn narrow_client_is_client()
    ensures same { NarrowClientIsClient }
    ensures settled { NarrowClientSettlesComplete }
    ensures barred { NoResetBarsNothing }
{}
