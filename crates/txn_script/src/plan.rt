//! How a batch is to be run.
ghost use Rattle.std.specs.Prelude.{◌≡◌, ◌≢◌, true, [], Err, IfOk};
ghost use Rattle.std.specs.List.{list_all};
ghost use Rattle.std.specs.Option.{option_copied};
ghost use Rattle.doc_value.specs.declared.value.Value.{out-Value};
ghost use Rattle.txn_script.specs.Plans.{count_in, has_plan_fields, has_stop, if_there, is_plan_name, plan_in, plan_of, runners_in, stop_each_once, stop_in, stop_of, stops_in, stops_of, truth_in};
ghost use Rattle.txn_script.specs.Statements.{or_fault};

use crate::fault::ScriptFault;
use doc_value::{Field, OutOfMemory, Value};
use sqlite_items::Items;
use std::alloc::Global;

/// The most runners of a batch.
const MAX_RUNNERS: i64 = 16;

/// After how many steps a runner stops.
#[derive(Clone, Copy, Debug, PartialEq, Eq)]
pub struct Stop {
    pub runner: u32,
    pub steps: u64,
}

/// How a batch is to be run: by how many runners, which are stepped by draws from the seed, where they stop,
/// and whether what they leave is finished.
#[derive(Drop)]
pub struct GoPlan {
    pub runners: u32,
    pub seed: u64,
    pub stops: Items<Stop>,
    pub finish: bool,
}

impl GoPlan {
    /// The plan that the value is: an object of `runners`, `seed`, `stops` and `finish`, each of which may be
    /// left out. Any other value is a bad statement.
    #[tactic(auto, unfolding(crate::specs::Plans::plan_in))]
    pub fn read(alloc: Global, value: &Value) -> Result<GoPlan, ScriptFault>
        ensures { result ≢ Err ScriptFault.OutOfMemory
            → result ≡ or_fault ScriptFault.BadStatement (plan_in value.now) }
    {
        if !has_plan_fields(value) {
            return Err(ScriptFault::BadStatement);
        }
        let runners = read_runners(value.field(b"runners"))?;
        read_plan(alloc, value, runners)
    }

    /// An equal plan.
    pub fn copy(&self, alloc: Global) -> Result<GoPlan, OutOfMemory>
        ensures { IfOk result (λ copy. copy ≡ self.now) }
    {
        let stops = Items::from_slice(alloc, self.stops.as_slice())?;
        Ok(GoPlan {
            runners: self.runners,
            seed: self.seed,
            stops,
            finish: self.finish,
        })
    }
}

fn has_plan_fields(value: &Value) -> bool
    ensures { result ≡ has_plan_fields (out-Value value.now) }
{
    match value {
        Value::Object(fields) => are_plan_fields(fields.as_slice()),
        _ => false,
    }
}

fn are_plan_fields(fields: &[Field]) -> bool
    ensures { result ≡ list_all (λ field. is_plan_name field.name) fields.now }
{
    for field in fields {
        if !is_plan_name(field.name.as_bytes()) {
            return false;
        }
    }
    true
}

fn is_plan_name(name: &[u8]) -> bool
    ensures { result ≡ is_plan_name name.now }
{
    name == b"finish".as_slice()
        || name == b"runners".as_slice()
        || name == b"seed".as_slice()
        || name == b"stops".as_slice()
}

/// The plan of so many runners, from what is left of the value.
#[tactic(auto, unfolding(crate::specs::Plans::plan_of))]
fn read_plan(alloc: Global, value: &Value, runners: u32) -> Result<GoPlan, ScriptFault>
    ensures { result ≢ Err ScriptFault.OutOfMemory
        → result ≡ or_fault ScriptFault.BadStatement (plan_of value.now runners) }
{
    let seed = read_seed(value.field(b"seed"))?;
    let stops = read_stops(alloc, runners, value.field(b"stops"))?;
    let finish = read_finish(value.field(b"finish"))?;
    Ok(GoPlan {
        runners,
        seed,
        stops,
        finish,
    })
}

fn read_runners(value: Option<&Value>) -> Result<u32, ScriptFault>
    ensures { result ≡ or_fault ScriptFault.BadStatement
        (if_there 1 runners_in (option_copied value.entry)) }
{
    match value {
        Some(Value::Int(number)) if 1 <= *number && *number <= MAX_RUNNERS => Ok(*number as u32),
        Some(_) => Err(ScriptFault::BadStatement),
        None => Ok(1),
    }
}

fn read_seed(value: Option<&Value>) -> Result<u64, ScriptFault>
    ensures { result ≡ or_fault ScriptFault.BadStatement
        (if_there 0 count_in (option_copied value.entry)) }
{
    match value {
        Some(value) => read_count(value),
        None => Ok(0),
    }
}

/// A whole number, 0 or more.
fn read_count(value: &Value) -> Result<u64, ScriptFault>
    ensures { result ≡ or_fault ScriptFault.BadStatement (count_in (out-Value value.now)) }
{
    match value {
        Value::Int(number) if *number >= 0 => Ok(*number as u64),
        _ => Err(ScriptFault::BadStatement),
    }
}

fn read_finish(value: Option<&Value>) -> Result<bool, ScriptFault>
    ensures { result ≡ or_fault ScriptFault.BadStatement
        (if_there true truth_in (option_copied value.entry)) }
{
    match value {
        Some(Value::Bool(finish)) => Ok(*finish),
        Some(_) => Err(ScriptFault::BadStatement),
        None => Ok(true),
    }
}

/// Stops of so many runners, each at most once.
#[tactic(auto, unfolding(crate::specs::Plans::stops_in))]
fn read_stops(
    alloc: Global,
    runners: u32,
    value: Option<&Value>,
) -> Result<Items<Stop>, ScriptFault>
    ensures { result ≢ Err ScriptFault.OutOfMemory → result ≡ or_fault ScriptFault.BadStatement
        (if_there [] (stops_in runners) (option_copied value.entry)) }
{
    let values = match value {
        Some(Value::List(values)) => values.as_slice(),
        Some(_) => return Err(ScriptFault::BadStatement),
        None => return Ok(Items::new(alloc)),
    };
    let stops = read_each_stop(alloc, runners, values)?;
    if !stop_each_once(stops.as_slice()) {
        return Err(ScriptFault::BadStatement);
    }
    Ok(stops)
}

fn read_each_stop(alloc: Global, runners: u32, values: &[Value]) -> Result<Items<Stop>, ScriptFault>
    ensures { result ≢ Err ScriptFault.OutOfMemory
        → result ≡ or_fault ScriptFault.BadStatement (stops_of runners values.now) }
{
    let mut stops = Items::new(alloc);
    for value in values {
        stops.push(read_stop(runners, value)?)?;
    }
    Ok(stops)
}

fn read_stop(runners: u32, value: &Value) -> Result<Stop, ScriptFault>
    ensures { result ≡ or_fault ScriptFault.BadStatement (stop_in runners (out-Value value.now)) }
{
    match value {
        Value::List(parts) => read_parts(runners, parts.as_slice()),
        _ => Err(ScriptFault::BadStatement),
    }
}

fn read_parts(runners: u32, parts: &[Value]) -> Result<Stop, ScriptFault>
    ensures { result ≡ or_fault ScriptFault.BadStatement (stop_of runners parts.now) }
{
    let [runner, steps] = parts else {
        return Err(ScriptFault::BadStatement);
    };
    let runner = read_count(runner)?;
    let steps = read_count(steps)?;
    if runner >= u64::from(runners) {
        return Err(ScriptFault::BadStatement);
    }
    Ok(Stop {
        runner: runner as u32,
        steps,
    })
}

/// Whether each runner has one stop at most.
fn stop_each_once(stops: &[Stop]) -> bool
    ensures { result ≡ stop_each_once stops.now }
{
    for i in 0..stops.len() {
        if has_stop(stops[i].runner, &stops[i + 1..]) {
            return false;
        }
    }
    true
}

fn has_stop(runner: u32, stops: &[Stop]) -> bool
    ensures { result ≡ has_stop runner stops.now }
{
    for stop in stops {
        if stop.runner == runner {
            return true;
        }
    }
    false
}
