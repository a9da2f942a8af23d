ghost use Rattle.std.specs.Prelude.{◌≡◌};
ghost use Rattle.txn_record.specs.States.{state_number};

/// How far a transaction has come.
#[derive(Clone, Copy, Debug, PartialEq, Eq)]
pub enum State {
    Preparing,
    Prepared,
    Aborting,
    Applying,
    Aborted,
    Applied,
}

impl State {
    /// The number that the state is written as: 1 to 6, in the order above.
    pub fn number(self) -> u8
        ensures { result ≡ state_number self }
    {
        match self {
            State::Preparing => 1,
            State::Prepared => 2,
            State::Aborting => 3,
            State::Applying => 4,
            State::Aborted => 5,
            State::Applied => 6,
        }
    }
}
