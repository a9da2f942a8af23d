ghost use Rattle.std.specs.Prelude.{◌≡◌, ◌≢◌, IfOk, Err, is_ok, length};
ghost use Rattle.std.specs.List.{list_any};
ghost use Rattle.doc_value.specs.Paths.{path_in, path_of, parts_of, is_empty_part, is_bad_part, begins_reserved};

use crate::fault::PathFault;
use crate::name;
use crate::text::{OutOfMemory, Text};
use sqlite_items::Items;
use std::alloc::{AllocError, Global};
use std::marker::Model;

/// The most bytes of a path's text.
const MAX_PATH_LEN: usize = 1024;

/// The names that lead from object to object to a field. Contracts see them as the list of their bytes.
#[derive(Drop)]
pub struct Path {
    parts: Items<Text>,
}

impl Model for Path {
    ghost use Rattle.std.specs.Prelude.{List, ℕ};

    ghost Value = { List (List ℕ) };

    ghost view = { λ path. path.parts };
}

impl Path {
    /// The path whose parts the dots of the text part.
    pub fn read(alloc: Global, text: &[u8]) -> Result<Path, PathFault>
        ensures exact { result ≢ Err PathFault.OutOfMemory → result ≡ path_in text.now }
    {
        let Ok(text) = std::str::from_utf8(text) else {
            return Err(PathFault::BadPart);
        };
        Path::read_text(alloc, text)
    }

    fn read_text(alloc: Global, text: &str) -> Result<Path, PathFault>
        ensures exact { result ≢ Err PathFault.OutOfMemory
            → result ≡ path_of (length text.now) (parts_of text.now) }
    {
        let parts = split_parts(alloc, text)?;
        if has_empty_part(parts.as_slice()) {
            return Err(PathFault::EmptyPart);
        }
        if has_bad_part(parts.as_slice()) || text.len() > MAX_PATH_LEN {
            return Err(PathFault::BadPart);
        }
        if is_reserved(parts.as_slice()) {
            return Err(PathFault::Reserved);
        }
        Ok(Path { parts })
    }

    pub fn parts(&self) -> &[Text]
        ensures { result.now ≡ self.now }
    {
        self.parts.as_slice()
    }

    /// An equal path.
    pub fn copy(&self, alloc: Global) -> Result<Path, OutOfMemory>
        ensures { IfOk result (λ copy. copy ≡ self.now) }
    {
        Ok(Path {
            parts: copy_parts(alloc, self.parts.as_slice())?,
        })
    }
}

fn copy_parts(alloc: Global, parts: &[Text]) -> Result<Items<Text>, OutOfMemory>
    ensures { IfOk result (λ copies. copies ≡ parts.now) }
{
    let mut copies = Items::new(alloc);
    for part in parts {
        copies.push(part.copy(alloc)?)?;
    }
    Ok(copies)
}

/// Whether a path has that text.
pub fn is_path(alloc: Global, text: &[u8]) -> Result<bool, OutOfMemory>
    ensures { IfOk result (λ is. is ≡ is_ok (path_in text.now)) }
{
    match Path::read(alloc, text) {
        Ok(_) => Ok(true),
        Err(PathFault::OutOfMemory) => Err(AllocError),
        Err(_) => Ok(false),
    }
}

/// The pieces between the dots.
pub fn split_parts(alloc: Global, text: &str) -> Result<Items<Text>, OutOfMemory>
    ensures { IfOk result (λ parts. parts ≡ parts_of text.now) }
{
    let pieces: Vec<&str> = text.split('.').collect(alloc)?;
    let mut parts = Items::new(alloc);
    for piece in &pieces {
        parts.push(Text::from_str(alloc, piece)?)?;
    }
    Ok(parts)
}

fn has_empty_part(parts: &[Text]) -> bool
    ensures { result ≡ list_any is_empty_part parts.now }
{
    parts.iter().any(|part| part.as_bytes().is_empty())
}

fn has_bad_part(parts: &[Text]) -> bool
    ensures { result ≡ list_any is_bad_part parts.now }
{
    parts.iter().any(|part| is_bad(part.as_bytes()))
}

fn is_bad(part: &[u8]) -> bool
    ensures { result ≡ is_bad_part part.now }
{
    name::is_operator(part) || part.contains(&0)
}

fn is_reserved(parts: &[Text]) -> bool
    ensures { result ≡ begins_reserved parts.now }
{
    let Some(first) = parts.first() else {
        return false;
    };
    let part = first.as_bytes();
    name::is_id(part) || name::is_of_transactions(part)
}
