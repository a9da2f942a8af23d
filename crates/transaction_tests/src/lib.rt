//! Tests of what makes up transactions, and of nothing else: public calls of `txn_key`, `txn_record`,
//! `cell_text`, `txn_script` and `txn_io` on tables of worked rows.
//!
//! They stand here so that those crates are proved once and not twice. What a contract says of all inputs
//! isn't repeated: the rows show that the definitions mean what was meant, and that calls succeed.
#![tactic(auto)]

#[cfg(test)]
mod cells;
#[cfg(test)]
mod keys;
#[cfg(test)]
mod operations;
#[cfg(test)]
mod records;
#[cfg(test)]
mod statements;
#[cfg(test)]
mod streams;
