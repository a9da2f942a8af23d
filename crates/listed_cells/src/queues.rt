//! The owner queues of a store, by the cells that hold them.
ghost use Rattle.std.specs.Prelude.{◌≡◌, Some, None};
ghost use Rattle.store_laws.specs.View.{by_side};
ghost use Rattle.std.specs.Option.{option_copied};
ghost use Rattle.listed_cells.specs.Listing.{IsListing, content_of};
ghost use Rattle.listed_cells.specs.Queues.{owned_key, queue_of};

use crate::cells::{owner_at, queue_at};
use store_trait::{Name, Named, Side};
use txn_key::{Key, Token};

/// The queue that the cell of a name holds, where it owns its key.
pub(crate) fn owner_queue<'a>(cells: &'a [Named], name: &Name) -> &'a [Token]
    requires { IsListing cells.now }
    ensures { result.now ≡ queue_of (content_of cells.now) name.now }
{
    match owned_key(cells, name) {
        Some(key) => queue_at(cells, key),
        None => &[],
    }
}

/// The key that the cell of a name owns.
pub(crate) fn owned_key<'a>(cells: &[Named], name: &'a Name) -> Option<&'a Key>
    requires { IsListing cells.now }
    ensures { option_copied result ≡ owned_key (content_of cells.now) name.now }
{
    match name {
        Name::Doc(key) => document_key(owner_at(cells, key), key),
        Name::Stash(key) => stash_key(owner_at(cells, key), key),
        _ => None,
    }
}

/// A key, where its document owns it.
fn document_key(side: Side, key: &Key) -> Option<&Key>
    ensures { option_copied result ≡ by_side side None (Some key.now) None }
{
    match side {
        Side::Document => Some(key),
        Side::Neither => None,
        Side::Stash => None,
    }
}

/// A key, where its stash entry owns it.
fn stash_key(side: Side, key: &Key) -> Option<&Key>
    ensures { option_copied result ≡ by_side side None None (Some key.now) }
{
    match side {
        Side::Stash => Some(key),
        Side::Neither => None,
        Side::Document => None,
    }
}
