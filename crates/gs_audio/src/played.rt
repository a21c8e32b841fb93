// Units that are played.

/// Units of one block that are to be played now, each in the place of its number in the block. All four are `None`
/// where there is nothing to play now, and `first` is 0 then.
#[derive(Clone, Copy)]
pub struct Played<'a> {
    /// The number of the block's first unit.
    pub first: u32,
    /// The units that are there, in their order.
    pub units: [Option<&'a [u8]>; 4],
}

impl Played<'_> {
    // Nothing to play.
    pub(crate) const NOTHING: Played<'static> = Played {
        first: 0,
        units: [None; 4],
    };
}
