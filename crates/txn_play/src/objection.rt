//! What stands against a statement that reads well.

/// What stands against a statement where it stands in its script, in the order of the tests.
#[derive(Clone, Copy, Debug, PartialEq, Eq)]
pub enum Objection {
    /// A cell is placed behind a statement that places nothing.
    PlacedTooLate,
    /// The store has a cell of that name.
    PlacedTwice,
    /// 10,000 transactions wait already.
    TooManyWaiting,
    /// A transaction of that id waits, or has a record.
    IdExists,
    /// The statement is of a form that isn't built where it stands.
    NotBuilt,
}
