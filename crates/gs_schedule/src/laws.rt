//! The laws of the lines, each the contract of a function that does nothing.

ghost use Rattle.gs_schedule.specs.Laws.{LineHasOneOutput, LineSpellsOneStep};

/// A line spells one step at most.
pub fn line_spells_one_step()
    ensures { LineSpellsOneStep }
{}

/// Two values have different output lines.
pub fn line_has_one_output()
    ensures { LineHasOneOutput }
{}
