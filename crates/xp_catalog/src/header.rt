//! The columns of a rows file.
ghost use Rattle.std.specs.Prelude.{◌≡◌, ◌<◌, [], ◌∷◌, ◌++◌, None, IfSome, OnErr, OnOk, length};

use sqlite_items::Items;
use std::alloc::Global;
use std::marker::Model;
use xp_base::{Memory, Name, TypeNo};

/// A column of a rows file.
#[derive(Debug, Drop)]
pub struct HeaderColumn {
    pub name: Name,
    pub ty: TypeNo,
}

/// The columns of a rows file, which contracts see as a list. No two have one name.
#[derive(Debug, Drop)]
pub struct Header {
    columns: Items<HeaderColumn>,
}

impl Model for Header {
    ghost use Rattle.std.specs.Prelude.{List};
    ghost use Rattle.xp_catalog.specs.declared.header.HeaderColumn.{HeaderColumn};
    ghost use Rattle.xp_catalog.specs.Headers.{HasOwnNames};

    ghost Value = { List HeaderColumn };

    ghost view = { λ h. h.columns };

    ghost invariant = { λ h. HasOwnNames h.columns };
}

impl Header {
    ghost use Rattle.xp_catalog.specs.Headers.{HasOwnNames, column_named};

    /// No columns yet, which takes no memory.
    pub fn new(alloc: Global) -> Header
        ensures { result ≡ [] }
    {
        Header {
            columns: Items::new(alloc),
        }
    }

    /// The columns from left to right.
    pub fn columns(&self) -> &[HeaderColumn]
        ensures value { result.now ≡ self.now }
        ensures names { HasOwnNames self.now }
    {
        self.columns.as_slice()
    }

    /// The place of the column of that name, counted from 0.
    pub fn column_named(&self, name: &str) -> Option<usize>
        ensures value { result ≡ column_named self.now name.now }
        ensures within { IfSome result (λ place. place < length self.now) }
    {
        self.columns
            .as_slice()
            .iter()
            .position(|column| column.name.as_str() == name)
    }

    /// Adds a column at the right.
    pub fn push(&mut self, column: HeaderColumn) -> Result<(), Memory>
        requires { column_named self.old column.name ≡ None }
        ensures ok { OnOk result (self.new ≡ self.old ++ column ∷ []) }
        ensures err { OnErr result (self.new ≡ self.old) }
    {
        self.columns.push(column)?;
        Ok(())
    }
}
