// Laws about a host and its client, proved of the definitions.

ghost use Rattle.gs_pair.specs.References.{
  CutsAreInOrder,
  ReferencesWereHanded,
  ReferencesWereHandedWithoutResets,
};

/// Laws: over any history that a host may have, and whatever a client that is paired with it was given, each
/// frame that the client's decoder is handed and that refers to another has that other handed earlier, and
/// behind the last reset before it. They hold for each window of 1 to 4 frames.
pub fn references_were_handed()
    ensures behind_resets { ReferencesWereHanded }
    ensures without_resets { ReferencesWereHandedWithoutResets }
{}

/// A law: the numbers of frames that were handed before each reset are such cuts as `references_held_since`
/// takes.
pub fn cuts_are_in_order()
    ensures { CutsAreInOrder }
{}
