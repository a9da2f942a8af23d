//! Two preparations over one key, interleaved in every order, with a helper of the first between any two
//! steps. After each step the store is audited.
use crate::audits::fault;
use crate::parts::{opened, preparation, prepare, record};
use flush_prepare::Prepare;
use std::alloc::Global;
use std::test::Fail;
use store_memory::SilentStore;
use store_trait::{Name, Store, record_in};

const FIRST: &str =
    r#"{"cell":"record","is":{"_id":"000000000000000000000001","o":[{"c":"k","d":"x","u":{"$set":{"v":1}}}],"s":1}}"#;

const SECOND: &str =
    r#"{"cell":"record","is":{"_id":"000000000000000000000002","o":[{"c":"k","d":"x","u":{"$set":{"v":2}}}],"s":1}}"#;

const DOCUMENT: &str = r#"{"c":"k","cell":"doc","is":{"_id":"x","v":0}}"#;

/// Makes a step, and whether the store is sound after it.
fn steps(alloc: Global, store: &mut SilentStore, part: &mut Prepare) -> Result<bool, Fail> {
    let answer = part.step(alloc, store);
    if answer.is_err() {
        return Err("refused".into());
    }
    Ok(fault(alloc, store).is_none())
}

/// Whether a helper that prepares the first record anew leaves the store sound.
fn helps(alloc: Global, store: &mut SilentStore) -> Result<bool, Fail> {
    let answer = prepare(alloc, store, FIRST)?;
    if answer.is_err() {
        return Err("refused".into());
    }
    Ok(fault(alloc, store).is_none())
}

/// Whether the record of a line is prepared by now.
fn is_prepared(alloc: Global, store: &mut SilentStore, line: &str) -> Result<bool, Fail> {
    let id = record(alloc, line)?.id;
    let found = store
        .read(alloc, &Name::Record(id))
        .ok()
        .ok_or("store fault")?;
    match record_in(found) {
        Some(rec) => Ok(rec.is_decided()),
        None => Ok(false),
    }
}

/// Both preparations, which take turns.
#[derive(Drop)]
struct Pair {
    first: Prepare,
    second: Prepare,
}

/// Whether the store is sound after each of twelve steps, of which the bits of `order` say whose turn it is, and
/// after the helper, which comes before the step `helped`.
fn steps_stay_sound(
    alloc: Global,
    store: &mut SilentStore,
    pair: &mut Pair,
    order: u32,
    helped: u32,
) -> Result<bool, Fail> {
    for place in 0_u32..12 {
        if place == helped && !helps(alloc, store)? {
            return Ok(false);
        }
        let part = if order >> place & 1 == 1 {
            &mut pair.first
        } else {
            &mut pair.second
        };
        if !steps(alloc, store, part)? {
            return Ok(false);
        }
    }
    Ok(true)
}

/// The same from the beginning, and whether both records are prepared in the end.
fn stays_sound(alloc: Global, order: u32, helped: u32) -> Result<bool, Fail> {
    let mut store = opened(alloc, &[FIRST, SECOND, DOCUMENT])?;
    let mut pair = Pair {
        first: preparation(alloc, FIRST)?,
        second: preparation(alloc, SECOND)?,
    };
    if !steps_stay_sound(alloc, &mut store, &mut pair, order, helped)? {
        return Ok(false);
    }
    Ok(is_prepared(alloc, &mut store, FIRST)? && is_prepared(alloc, &mut store, SECOND)?)
}

#[test]
fn every_order_stays_sound(rt: HostRuntime) -> Result<(), Fail> {
    for order in 0_u32..4096 {
        if order.count_ones() == 6 {
            for helped in 0..13 {
                assert!(rt; stays_sound(rt.alloc(), order, helped)?, "{order} {helped}");
            }
        }
    }
    Ok(())
}
