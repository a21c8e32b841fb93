// Laws about histories and choices, each proved of the definitions.

ghost use Rattle.gs_refs.specs.ChoiceLaws.{ChoiceIsSound, ValidFramesWereSent, TicksRise, FramesAreOfTicks};

/// Laws: a choice is of kind 1, 2 or 5; kind 2 refers to no frame, and any other kind to a valid frame
/// that was sent and whose tick the chosen tick has a unit against. For kind 1 that is the last frame,
/// for kind 5 the greatest there is.
pub fn choice_is_sound()
    ensures choice { ChoiceIsSound }
    ensures valid { ValidFramesWereSent }
{}

/// Laws: in a legal history each frame is from a tick of the capture, and a later frame from a later one.
pub fn legal_histories()
    ensures rise { TicksRise }
    ensures there { FramesAreOfTicks }
{}
