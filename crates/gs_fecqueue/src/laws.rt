// What a queue stands for, and what is at hand, proved of the definitions.

ghost use Rattle.gs_fecqueue.specs.QueueLaws.{ResetChangesNothing, WholeFrameIsAtHand};

/// A law: a reset of the decoder changes nothing for a queue. It stands for what was given with the reset too.
pub fn reset_changes_nothing()
    ensures { ResetChangesNothing }
{}

/// A law: where the verdict on a datagram says that its frame became whole, the frame has an image, and `image` gives
/// it.
pub fn whole_frame_is_at_hand()
    ensures { WholeFrameIsAtHand }
{}
