// Laws about runs, each proved of the definitions.

ghost use Rattle.gs_run.specs.PumpLaws.{PumpsAdvance, PumpsEnd};
ghost use Rattle.gs_run.specs.ReportLaws.{
  RunsReportHanded,
  RunsReportAsked,
  RunsReportPlayed,
  RunsReportInputs,
};
ghost use Rattle.gs_run.specs.RunLaws.{
  RunsArePaired,
  RunsCompleteFrames,
  RunsHandCapturedUnits,
  RunsHandReferences,
  RunsPlayCapturedUnits,
  RunsTellInOrder,
  SchedulesHaveARun,
  SchedulesHaveOneRun,
  StepsHaveOneRun,
};
ghost use Rattle.gs_run.specs.UserEvents.{RunsGiveEvents, RunsTellUsers};
ghost use Rattle.gs_run.specs.WholeRun.{
  BytesAreCaptures,
  GeneratedFilesAreCaptures,
  GeneratedRunsHold,
  RunsHaveDeeds,
  RunsHold,
  RunsOfStepsHaveDeeds,
  RunsOfStepsHold,
  RunsOverBytesHold,
  RunsReportClosed,
  RunsReportEntries,
  RunsTellAllOnceClosed,
};

use gs_audio::played_units_were_sent;
use gs_input::packet_is_read;

/// A law: behind any deeds of a run, over any capture file within its limits, each session's history is one that
/// a host may have and nothing ended it, each video and audio datagram that its client was given went out, and what
/// its host took as invalid is a prefix of what its client asked for. However datagrams are lost, repeated or
/// reordered, and whenever a decoder is reset.
pub fn runs_are_paired()
    ensures { RunsArePaired }
{}

/// A law: each frame that a client was handed was sent, with its kind, and is byte for byte the captured unit of it.
pub fn runs_hand_captured_units()
    ensures { RunsHandCapturedUnits }
{}

/// A law: each frame that a client was handed and that refers to another was handed behind it, and behind the last
/// reset before it.
pub fn runs_hand_references()
    ensures { RunsHandReferences }
{}

/// A law: whichever datagrams were lost and in whatever order the others came, a frame of whose blocks enough distinct
/// datagrams came before any by which it is left is complete from then on and holds its captured unit. Once it is
/// settled it is handed, where it isn't barred and is a re-entry frame or follows a handed one; an IDR frame always.
pub fn runs_complete_frames()
    ensures { RunsCompleteFrames }
{}

/// A law: each audio unit that a client played is, byte for byte, the captured unit of its number: that of this place
/// among all units that its host's history put, tick by tick. The numbers rise, so that none is played twice. It rests
/// on the law that is called.
pub fn runs_play_captured_units()
    ensures { RunsPlayCapturedUnits }
{
    played_units_were_sent();
}

/// A law: what a host was told on a channel is what its client gave there first, in order, and all of it once the
/// host read that its client closed.
pub fn runs_tell_in_order()
    ensures { RunsTellInOrder }
{}

/// Laws: behind any deeds the lines of frames, asks and audio units that name a session are what its client is
/// handed, asks for and plays, in order and with each unit; its lines of input are what its host was told.
pub fn runs_report_streams()
    ensures handed { RunsReportHanded }
    ensures asked { RunsReportAsked }
    ensures played { RunsReportPlayed }
    ensures inputs { RunsReportInputs }
{}

/// Laws: behind any deeds the lines of frames sent, of ranges taken as invalid, of frames asked for that need no other
/// and of an end, which name a session, are the entries of its host's history, in order. There is a line that its
/// client closed each time that its host was told so.
pub fn runs_report_hosts()
    ensures entries { RunsReportEntries }
    ensures closed { RunsReportClosed }
{}

/// A law: behind any deeds a client gave on each channel, but for that of requests, the messages of the events that its
/// user did there, in order, and nothing else. An event that met a full window isn't among them.
pub fn runs_give_events()
    ensures { RunsGiveEvents }
{}

/// A law: behind any deeds whose events are such as the lines of a schedule have, the input events that a host was told
/// on each channel, but for that of requests, are those that its client's user did there first, in order, and all of
/// them once a line says that the client closed. It rests on the law that is called.
pub fn runs_tell_users()
    ensures { RunsTellUsers }
{
    packet_is_read();
}

/// A law: behind any deeds, where a line says that the client of a session closed, its host was told all that the
/// client gave, on every channel.
pub fn runs_tell_all_once_closed()
    ensures { RunsTellAllOnceClosed }
{}

/// Laws: each run of lines, and each run of steps, is that of a list of deeds, none of which was refused. They left its
/// state and reported all that it reports, but for the sums and the last line.
pub fn runs_have_deeds()
    ensures lines { RunsHaveDeeds }
    ensures steps { RunsOfStepsHaveDeeds }
{}

/// Laws: the file of any bytes is a capture that a run can be over, unless its head has a fault: its ticks keep the
/// limits, its units are bytes, and the duration of its audio units is known. So is what any number generates, up to
/// 2,000 ticks.
pub fn files_are_captures()
    ensures bytes { BytesAreCaptures }
    ensures generated { GeneratedFilesAreCaptures }
{}

/// Laws of every run, behind each of its deeds and at its end (`RunHolds`). Each session's history is one that a host
/// may have, and is paired with what its client was given. Each frame that was handed is, byte for byte, its captured
/// unit, and the frame that it refers to was handed before it, behind the last reset. Each frame of which enough came
/// in time is complete, and is handed as the rules say. Each audio unit that was played is the captured one. The lines
/// that name a session are what its history has, what its client was handed, asked for and played, and what its host
/// was told: on each channel what its client's user did there first, and all of it once a line says that the client
/// closed. They hold of a run of lines, and of a run of steps whose events are such as lines have, over a capture; so
/// of any lines over any bytes, and of the generated run. They rest on the laws that are called.
pub fn whole_runs_hold()
    ensures lines { RunsHold }
    ensures steps { RunsOfStepsHold }
    ensures bytes { RunsOverBytesHold }
    ensures generated { GeneratedRunsHold }
{
    played_units_were_sent();
    packet_is_read();
}

/// Laws: a schedule has one run at most over a capture file, and so have steps: they decide each deed, what is reported
/// and how the run ends.
pub fn schedules_have_one_run()
    ensures lines { SchedulesHaveOneRun }
    ensures steps { StepsHaveOneRun }
{}

/// A law: every schedule has a run over every capture file, whatever its lines and the file hold.
pub fn schedules_have_a_run()
    ensures { SchedulesHaveARun }
{}

/// A law: a number bounds the deliveries that a pump may still make, and each delivery lessens it, whatever the state
/// of the session and wherever the pump is. So it is a measure for a loop that pumps.
pub fn pumps_advance()
    ensures { PumpsAdvance }
{}

/// A law: in any state a pump has its deeds, so it ends.
pub fn pumps_end()
    ensures { PumpsEnd }
{}
