use txn_record::Outcome;

/// What is left to do for a transaction.
#[derive(Clone, Copy)]
pub enum Stage {
    /// A nonce is to be drawn.
    Draw,
    /// Its token is to be put into the queue of its key.
    Queue { nonce: u32 },
    /// Its record is to be moved to prepared.
    Prepare { nonce: u32 },
    /// Its document is to be read.
    Look { nonce: u32 },
    /// It is to be decided by what its document was read as.
    Decide { nonce: u32, revno: i64, holds: bool },
    /// Its update is to be made.
    Update { nonce: u32, revno: i64 },
    /// Its record is to be moved to applied.
    Finish,
    /// Its record is to be moved to aborted.
    Abort,
    Settled(Outcome),
}
