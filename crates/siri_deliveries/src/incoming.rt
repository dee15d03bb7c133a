//! Deliveries that are read as their tokens come: the tree of a visit is let go of before the next is read, so no tree of
//! a whole delivery is there.
//!
//! Only what is read without a refusal is read so. Where something is refused, or stands in a form that is rare, nothing
//! is told but that, and the tree of the document tells the rest.

ghost use Rattle.std.specs.Prelude.{◌≡◌, Result, List, IfOk};
ghost use Rattle.serde_json.specs.Data.{Data};
ghost use Rattle.siri_json.specs.Shown.{shown};
ghost use Rattle.siri_tables.specs.Refusals.{Refusal};
ghost use Rattle.siri_deliveries.specs.AsItComes.{Comes, ListComes, PartsCome, entries, unread_table, unread_token};
ghost use Rattle.siri_deliveries.specs.declared.incoming.NotRead.TheVariants as unread;

use json::{Error as JsonError, Invalid, Reader, Token};
use siri_base::{List, OutOfMemory};
use siri_json::Tree;
use siri_tables::TableError;
use siri_tables::rules::Table;
use std::alloc::{AllocError, AllocFailed, Global};

/// Why nothing was read of the tokens that came.
#[derive(Debug, Drop)]
pub enum NotRead {
    /// They are refused, or of a form that is read by its tree.
    Otherwise,
    /// There was no memory.
    OutOfMemory,
}

impl From<Invalid> for NotRead {
    ghost from_gives = { λ _ given. given ≡ unread.Otherwise };

    fn from(_: Invalid) -> Self {
        NotRead::Otherwise
    }
}

impl From<JsonError> for NotRead {
    ghost from_gives = { λ error given. given ≡ unread_token error };

    fn from(error: JsonError) -> Self {
        match error {
            JsonError::OutOfMemory => NotRead::OutOfMemory,
            _ => NotRead::Otherwise,
        }
    }
}

impl From<TableError> for NotRead {
    ghost from_gives = { λ error given. given ≡ unread_table error };

    fn from(error: TableError) -> Self {
        match error {
            TableError::OutOfMemory => NotRead::OutOfMemory,
            TableError::Refused { .. } => NotRead::Otherwise,
        }
    }
}

impl From<OutOfMemory> for NotRead {
    ghost from_gives = { λ _ given. given ≡ unread.OutOfMemory };

    fn from(_: OutOfMemory) -> Self {
        NotRead::OutOfMemory
    }
}

impl From<AllocError> for NotRead {
    ghost from_gives = { λ _ given. given ≡ unread.OutOfMemory };

    fn from(_: AllocError) -> Self {
        NotRead::OutOfMemory
    }
}

impl<T: Drop> From<AllocFailed<T>> for NotRead {
    ghost from_gives = { λ _ given. given ≡ unread.OutOfMemory };

    fn from(_: AllocFailed<T>) -> Self {
        NotRead::OutOfMemory
    }
}

/// A table whose objects are read as their tokens come.
pub trait Incoming: Table {
    /// What the rows of the object spell that stands next. Lists and objects may nest `depth` deep in it, itself counted.
    fn read_next(alloc: Global, reader: &mut Reader<'_>, depth: usize) -> Result<Self::Out, NotRead>
        ensures { IfOk result (λ out. Comes Self.rows depth reader.old reader.new out) };
}

/// What the rows of the object spell that stands next, by a tree of its own.
pub(crate) fn by_tree<T: Table>(
    alloc: Global,
    reader: &mut Reader<'_>,
    depth: usize,
) -> Result<T::Out, NotRead>
    ensures { IfOk result (λ out. Comes T.rows depth reader.old reader.new out) }
{
    let tree = Tree::read(alloc, reader, depth)?;
    match tree {
        Tree::Object(_) => Ok(T::read_rows(alloc, &tree)?),
        _ => Err(NotRead::Otherwise),
    }
}

/// The entries of the list that stands next, at most so many.
pub(crate) fn list_next<T: Incoming>(
    alloc: Global,
    reader: &mut Reader<'_>,
    depth: usize,
    most: usize,
) -> Result<List<T::Out>, NotRead>
    ensures { IfOk result (λ list. ListComes (entries T.rows most) depth reader.old reader.new list) }
{
    if depth == 0 {
        return Err(NotRead::Otherwise);
    }
    let Some(Token::BeginArray) = reader.next() else {
        return Err(NotRead::Otherwise);
    };
    let mut found = Vec::new(alloc);
    while !reader.take_end_array() {
        if found.len() >= most {
            return Err(NotRead::Otherwise);
        }
        found.reserve(1)?;
        match T::read_next(alloc, reader, depth - 1) {
            Ok(entry) => found.push_reserved(entry),
            Err(error) => return Err(error),
        }
    }
    Ok(List::of(found))
}

/// A list that is read apart from the object that it stands in.
pub(crate) trait Apart {
    /// What its entries are read as.
    type Out: Drop;

    /// What a value is read as, or the first refusal.
    ghost read: { Data → Result (List Self.Out) Refusal };

    /// What the value that stands next is read as.
    fn next(
        alloc: Global,
        reader: &mut Reader<'_>,
        depth: usize,
    ) -> Result<List<Self::Out>, NotRead>
        ensures { IfOk result (λ list. ListComes read depth reader.old reader.new list) };
}

/// The object that stands next in two parts: a tree of its members but those named `key`, and what the last of that name
/// is read as, nothing where there is none.
pub(crate) fn parts_next<'a, A: Apart>(
    alloc: Global,
    reader: &mut Reader<'a>,
    depth: usize,
    key: &str,
) -> Result<(Tree<'a>, List<A::Out>), NotRead>
    ensures { IfOk result (λ parts. PartsCome A.read key.now depth reader.old reader.new (shown parts.0) parts.1) }
{
    if depth == 0 {
        return Err(NotRead::Otherwise);
    }
    let Some(Token::BeginObject) = reader.next() else {
        return Err(NotRead::Otherwise);
    };
    let mut others = Vec::new(alloc);
    let mut own = List::new(alloc);
    while let Some(name) = reader.next_key()? {
        if name == key {
            own = A::next(alloc, reader, depth - 1)?;
        } else {
            others.push((name, Tree::read(alloc, reader, depth - 1)?))?;
        }
    }
    Ok((Tree::Object(others), own))
}
