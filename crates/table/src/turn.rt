//! A taken turn.

/// A turn: the number of its burst and its own, counted from 1. It is ended by answering or by withdrawing;
/// it is not `Drop`, so a program that lets it lapse is refused.
pub struct Turn {
    pub(crate) burst: u32,
    pub(crate) number: u32,
}

impl Turn {
    /// The turn is no more.
    pub(crate) fn spend(self) {
        let Turn {
            burst: _,
            number: _,
        } = self;
    }
}
