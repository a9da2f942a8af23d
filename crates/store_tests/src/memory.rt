//! The store in memory: what it lists, and the calls that fail.
use doc_value::{DocId, Fields, OutOfMemory, Text, Value};
use sqlite_items::Items;
use std::alloc::Global;
use std::cmp::Ordering;
use std::test::Fail;
use store_memory::MemoryStore;
use store_trait::{Cell, DocCell, Edit, Name, Named, Store, StoreError, counter_in};
use txn_key::Key;

fn doc_name(alloc: Global, id: i64) -> Result<Name, OutOfMemory> {
    let c = Text::from_str(alloc, "k")?;
    let d = DocId::Int(id);
    Ok(Name::Doc(Key { c, d }))
}

fn empty_doc(alloc: Global) -> Edit {
    let cell = Cell::Doc(DocCell {
        body: Value::Object(Fields::new(alloc)),
        revno: 0,
        queue: Items::new(alloc),
        remove: None,
    });
    Edit::Place { cell }
}

fn hit(
    alloc: Global,
    store: &mut MemoryStore,
    name: &Name,
    edit: &Edit,
) -> Result<bool, StoreError> {
    let done = store.edit(alloc, name, edit)?;
    Ok(done.hit)
}

fn is_named(found: Option<Named>, name: &Name) -> bool {
    match found {
        Some(it) => it.name.compare(name) == Ordering::Equal,
        None => false,
    }
}

/// Whether a document is placed where there was none.
fn place(alloc: Global, store: &mut MemoryStore, name: &Name) -> Result<bool, StoreError> {
    hit(alloc, store, name, &empty_doc(alloc))
}

/// Whether the next name past that of a document is that of another.
fn is_next(
    alloc: Global,
    store: &mut MemoryStore,
    name: &Name,
    next: &Name,
) -> Result<bool, StoreError> {
    Ok(is_named(store.next(alloc, Some(name))?, next))
}

/// Whether documents of rising names, the first of which isn't placed, are placed once each and listed in
/// their order, by six calls.
fn are_listed(
    alloc: Global,
    store: &mut MemoryStore,
    [none, first, last]: [&Name; 3],
) -> Result<bool, StoreError> {
    Ok(
        place(alloc, store, last)?
            && place(alloc, store, first)?
            && !place(alloc, store, last)?
            && is_next(alloc, store, none, first)?
            && is_next(alloc, store, first, last)?
            && !is_next(alloc, store, last, last)?
            && store.calls() == 6,
    )
}

#[test]
fn lists_what_was_placed_in_order(rt: HostRuntime) -> Result<(), Fail> {
    let none = doc_name(rt.alloc(), 0)?;
    let first = doc_name(rt.alloc(), 1)?;
    let last = doc_name(rt.alloc(), 3)?;
    let mut store = MemoryStore::new(rt.alloc(), Vec::new(rt.alloc()))?;
    assert!(rt; are_listed(rt.alloc(), &mut store, [&none, &first, &last]) == Ok(true));
    Ok(())
}

fn draw(alloc: Global, store: &mut MemoryStore) -> Result<Option<u32>, StoreError> {
    let done = store.edit(alloc, &Name::Nonce, &Edit::DrawNonce)?;
    Ok(counter_in(done.cell))
}

fn only(alloc: Global, failing: u64) -> Result<Vec<u64>, OutOfMemory> {
    Ok(vec![in alloc; failing]?)
}

/// The counter that is read after four calls, each of which draws a nonce or fails.
fn drawn(alloc: Global, failing: u64) -> Result<Option<u32>, StoreError> {
    let mut store = MemoryStore::new(alloc, only(alloc, failing)?)?;
    for call in 1..5 {
        let failed = draw(alloc, &mut store).is_err();
        if failed != (call == failing) {
            return Ok(None);
        }
    }
    Ok(counter_in(store.read(alloc, &Name::Nonce)?))
}

#[test]
fn fails_the_chosen_call_and_no_other(rt: HostRuntime) {
    for failing in 1..5 {
        assert!(rt; drawn(rt.alloc(), failing) == Ok(Some(3)), "{failing}");
    }
    assert!(rt; drawn(rt.alloc(), 6) == Ok(Some(4)));
}
