// The law, proved of the definitions of a run.

ghost use Rattle.gs_make.specs.EndsWell.{GeneratedRunsEndWell};

/// A law: the generated run ends well, whatever number it is of, up to 2,000 ticks. No session is refused and no tick
/// is missing, the clients stay connected until they close, and no count of datagrams, messages or asks comes to its
/// limit.
pub fn generated_runs_end_well()
    ensures { GeneratedRunsEndWell }
{}
