// How what a depack stands for goes on, proved of the definitions.

ghost use Rattle.gs_depack.specs.Laws.{
  DatagramChangesNothing,
  DatagramCompletesFrame,
  HandedSinceIsNewlyHanded,
  NothingToNote,
  QueueTellsMoves,
  StandingKeepsNumbers,
};

/// Laws: a depack that isn't told of a datagram stands for it too, where the datagram is neither of a greater frame
/// than all before it nor completes one. Where it completes a frame, that is to be noted; a frame that isn't complete
/// need not be. What was handed behind the frames handed before an arrival is what the arrival hands. A
/// depack keeps the numbers of what its client keeps.
pub fn untold_arrivals()
    ensures nothing { DatagramChangesNothing }
    ensures completes { DatagramCompletesFrame }
    ensures no_note { NothingToNote }
    ensures since { HandedSinceIsNewlyHanded }
    ensures numbers { StandingKeepsNumbers }
{}

/// A law: what a queue tells of a datagram of a greater frame than all before it is what `moved` is to be told.
pub fn queue_tells_moves()
    ensures { QueueTellsMoves }
{}
