ghost use Rattle.std.specs.Prelude.{◌≡◌, IfOk};

use crate::cell::{Cell, Tokens};
use doc_update::Update;
use doc_value::{OutOfMemory, Value};
use sqlite_items::Items;
use std::alloc::Global;
use txn_key::Token;
use txn_record::{Record, State, copy_revnos};

/// A change of one cell, made only where its guard holds.
#[derive(Drop)]
pub enum Edit {
    /// A record, where there is none of that id.
    InsertRecord {
        rec: Record,
    },
    /// A record moves on, where it is in the state `from`; nonce and revision numbers are set where
    /// they are given.
    Move {
        from: State,
        to: State,
        nonce: Option<u32>,
        revnos: Option<Items<i64>>,
    },
    /// A token at the end of the queue of an unmarked document or stash entry, unless it is there.
    /// An absent entry is made, at -1.
    AddToken {
        token: Token,
    },
    /// The body after an update and the next revision number, where the document stands at `revno`,
    /// the token is in its queue and the update fits.
    Update {
        revno: i64,
        token: Token,
        update: Update,
    },
    /// The mark of a token that is about to remove the document: an unmarked one at `revno`, with
    /// the token in its queue.
    MarkRemove {
        revno: i64,
        token: Token,
    },
    /// The mark of a token that is about to insert the document: on an unmarked stash entry at
    /// `revno`, with the token in its queue.
    MarkInsert {
        revno: i64,
        token: Token,
    },
    /// An unmarked document, where there is none, or one at a smaller number.
    PutDocNewer {
        revno: i64,
        body: Value,
        queue: Tokens,
    },
    /// An unmarked stash entry, where there is none, or one of a smaller epoch.
    PutStashNewer {
        revno: i64,
        queue: Tokens,
    },
    /// A document at `revno` goes.
    DropDoc {
        revno: i64,
    },
    /// A token leaves the queue of an unmarked document or stash entry at `revno`.
    Pull {
        revno: i64,
        token: Token,
    },
    /// The next nonce, where one is left.
    DrawNonce,
    /// A cell, where its name has none.
    Place {
        cell: Cell,
    },
    /// A cell goes, where it is equal to this one.
    Erase {
        cell: Cell,
    },
    /// Another cell, where the one there is equal to `old`.
    Replace {
        old: Cell,
        new: Cell,
    },
}

impl Edit {
    /// An equal edit.
    pub fn copy(&self, alloc: Global) -> Result<Edit, OutOfMemory>
        ensures { IfOk result (λ copy. copy ≡ self.now) }
    {
        match self {
            Edit::InsertRecord { rec } => {
                let rec = rec.copy(alloc)?;
                Ok(Edit::InsertRecord { rec })
            }
            Edit::Move {
                from,
                to,
                nonce,
                revnos,
            } => {
                let revnos = copy_revnos(alloc, revnos)?;
                Ok(Edit::Move {
                    from: *from,
                    to: *to,
                    nonce: *nonce,
                    revnos,
                })
            }
            Edit::AddToken { token } => Ok(Edit::AddToken { token: *token }),
            Edit::Update {
                revno,
                token,
                update,
            } => {
                let update = update.copy(alloc)?;
                Ok(Edit::Update {
                    revno: *revno,
                    token: *token,
                    update,
                })
            }
            Edit::MarkRemove { revno, token } => Ok(Edit::MarkRemove {
                revno: *revno,
                token: *token,
            }),
            Edit::MarkInsert { revno, token } => Ok(Edit::MarkInsert {
                revno: *revno,
                token: *token,
            }),
            Edit::PutDocNewer { revno, body, queue } => {
                let body = body.copy(alloc)?;
                let queue = Items::from_slice(alloc, queue.as_slice())?;
                Ok(Edit::PutDocNewer {
                    revno: *revno,
                    body,
                    queue,
                })
            }
            Edit::PutStashNewer { revno, queue } => {
                let queue = Items::from_slice(alloc, queue.as_slice())?;
                Ok(Edit::PutStashNewer {
                    revno: *revno,
                    queue,
                })
            }
            Edit::DropDoc { revno } => Ok(Edit::DropDoc { revno: *revno }),
            Edit::Pull { revno, token } => Ok(Edit::Pull {
                revno: *revno,
                token: *token,
            }),
            Edit::DrawNonce => Ok(Edit::DrawNonce),
            Edit::Place { cell } => {
                let cell = cell.copy(alloc)?;
                Ok(Edit::Place { cell })
            }
            Edit::Erase { cell } => {
                let cell = cell.copy(alloc)?;
                Ok(Edit::Erase { cell })
            }
            Edit::Replace { old, new } => {
                let old = old.copy(alloc)?;
                let new = new.copy(alloc)?;
                Ok(Edit::Replace { old, new })
            }
        }
    }
}

/// What an edit came to: whether its guard held, and the cell after the call in both cases.
#[derive(Drop)]
pub struct Edited {
    pub hit: bool,
    pub cell: Option<Cell>,
}

impl Edited {
    /// An equal answer.
    pub fn copy(&self, alloc: Global) -> Result<Edited, OutOfMemory>
        ensures { IfOk result (λ copy. copy ≡ self.now) }
    {
        let cell = copy_found(alloc, &self.cell)?;
        Ok(Edited {
            hit: self.hit,
            cell,
        })
    }
}

fn copy_found(alloc: Global, found: &Option<Cell>) -> Result<Option<Cell>, OutOfMemory>
    ensures { IfOk result (λ copy. copy ≡ found.now) }
{
    match found {
        None => Ok(None),
        Some(cell) => Ok(Some(cell.copy(alloc)?)),
    }
}
