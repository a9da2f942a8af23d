//! Names, edits and owners.
use doc_value::{DocId, Fields, OutOfMemory, Text, Value};
use sqlite_items::Items;
use std::alloc::Global;
use std::test::Fail;
use store_trait::{
    Cell, Changed, DocCell, Edit, Edited, Name, Named, Side, StashCell, change, counter_in, hits,
    owner,
};
use txn_key::{Key, TxnId};

fn doc_name(alloc: Global, id: i64) -> Result<Name, OutOfMemory> {
    let c = Text::from_str(alloc, "k")?;
    let d = DocId::Int(id);
    Ok(Name::Doc(Key { c, d }))
}

/// Names in their order, by place.
fn name_at(alloc: Global, place: u8) -> Result<Name, OutOfMemory> {
    match place {
        0 => Ok(Name::Record(TxnId([1; 12]))),
        1 => Ok(Name::Record(TxnId([2; 12]))),
        2 => doc_name(alloc, -1),
        3 => doc_name(alloc, 5),
        _ => Ok(Name::Nonce),
    }
}

fn are_ordered(alloc: Global, first: u8, second: u8) -> Result<bool, OutOfMemory> {
    let one = name_at(alloc, first)?;
    let other = name_at(alloc, second)?;
    Ok(one.compare(&other) == first.cmp(&second))
}

#[test]
fn names_stand_in_order(rt: HostRuntime) -> Result<(), Fail> {
    for first in 0..5 {
        for second in 0..5 {
            assert!(rt;
                are_ordered(rt.alloc(), first, second)?,
                "{first} against {second}"
            );
        }
    }
    Ok(())
}

fn draws(counter: u32) -> bool {
    hits(&Name::Nonce, &Edit::DrawNonce, Some(&Cell::Nonce(counter)))
}

fn put(changed: Changed) -> Option<Cell> {
    match changed {
        Changed::Put(after) => Some(after),
        _ => None,
    }
}

/// What is answered of the first nonce that is drawn.
fn first_drawn(alloc: Global) -> Result<Edited, OutOfMemory> {
    let changed = change(alloc, &Name::Nonce, &Edit::DrawNonce, None)?;
    let done = Edited {
        hit: true,
        cell: put(changed),
    };
    done.copy(alloc)
}

fn doc_cell(alloc: Global, revno: i64) -> DocCell {
    DocCell {
        body: Value::Object(Fields::new(alloc)),
        revno,
        queue: Items::new(alloc),
        remove: None,
    }
}

fn stash_cell(alloc: Global, revno: i64) -> StashCell {
    StashCell {
        revno,
        queue: Items::new(alloc),
        insert: None,
    }
}

fn owner_at(alloc: Global, revno: i64, stashed: i64) -> Side {
    let doc = doc_cell(alloc, revno);
    let stash = stash_cell(alloc, stashed);
    owner(Some(&doc), Some(&stash))
}

fn copied(alloc: Global, cell: Cell) -> Result<Named, OutOfMemory> {
    let name = Name::Nonce;
    Named { name, cell }.copy(alloc)
}

#[test]
fn nonces_end_and_the_greater_epoch_owns(rt: HostRuntime) -> Result<(), Fail> {
    assert!(rt; draws(4_294_967_294) && !draws(4_294_967_295));
    assert!(rt; counter_in(first_drawn(rt.alloc())?.cell) == Some(1));
    for (revno, stashed, side) in [
        (0, -1, Side::Stash),
        (1, -1, Side::Document),
        (2, -3, Side::Stash),
    ] {
        assert!(rt; owner_at(rt.alloc(), revno, stashed) == side, "{revno}");
    }
    assert!(rt; owner(None, None) == Side::Neither);
    let _doc = copied(rt.alloc(), Cell::Doc(doc_cell(rt.alloc(), 1)))?;
    let _stash = copied(rt.alloc(), Cell::Stash(stash_cell(rt.alloc(), -1)))?;
    Ok(())
}
