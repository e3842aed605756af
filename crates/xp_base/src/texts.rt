//! Names, texts and bytes, which contracts see as lists of bytes.
ghost use Rattle.std.specs.Prelude.{◌≡◌, [], ◌++◌, IfOk, OnOk, OnErr, string_bytes};

use crate::Memory;
use std::alloc::Global;
use std::marker::Model;

/// The bytes of a name, which are UTF-8.
#[derive(Debug, Drop)]
pub struct Name {
    text: String,
}

impl Model for Name {
    ghost use Rattle.std.specs.Prelude.{ℕ, List, string_bytes};

    ghost Value = { List ℕ };

    ghost view = { λ n. string_bytes n.text };
}

impl Name {
    pub fn from_str(alloc: Global, s: &str) -> Result<Name, Memory>
        ensures { IfOk result (λ n. n ≡ s.now) }
    {
        Ok(Name {
            text: String::from_str(alloc, s)?,
        })
    }

    /// Takes the text over, without memory.
    pub fn from_string(text: String) -> Name
        ensures { result ≡ string_bytes text }
    {
        Name { text }
    }

    pub fn as_str(&self) -> &str
        ensures { result.now ≡ self.now }
    {
        self.text.as_str()
    }
}

/// A text, which is UTF-8.
#[derive(Debug, Drop)]
pub struct Txt {
    text: String,
}

impl Model for Txt {
    ghost use Rattle.std.specs.Prelude.{ℕ, List, string_bytes};

    ghost Value = { List ℕ };

    ghost view = { λ t. string_bytes t.text };
}

impl Txt {
    pub fn from_str(alloc: Global, s: &str) -> Result<Txt, Memory>
        ensures { IfOk result (λ t. t ≡ s.now) }
    {
        Ok(Txt {
            text: String::from_str(alloc, s)?,
        })
    }

    /// Takes the text over, without memory.
    pub fn from_string(text: String) -> Txt
        ensures { result ≡ string_bytes text }
    {
        Txt { text }
    }

    pub fn as_str(&self) -> &str
        ensures { result.now ≡ self.now }
    {
        self.text.as_str()
    }
}

/// Bytes that grow at their end.
#[derive(Debug, Drop)]
pub struct Byts {
    bytes: Vec<u8>,
}

impl Model for Byts {
    ghost use Rattle.std.specs.Prelude.{ℕ, List};

    ghost Value = { List ℕ };

    ghost view = { λ b. b.bytes.items };
}

impl Byts {
    /// No bytes yet, which takes no memory.
    pub fn new(alloc: Global) -> Byts
        ensures { result ≡ [] }
    {
        Byts {
            bytes: Vec::new(alloc),
        }
    }

    /// Adds the piece at the end.
    pub fn append(&mut self, piece: &[u8]) -> Result<(), Memory>
        ensures ok { OnOk result (self.new ≡ self.old ++ piece.now) }
        ensures err { OnErr result (self.new ≡ self.old) }
    {
        self.bytes.extend_from_slice(piece)?;
        Ok(())
    }

    pub fn as_slice(&self) -> &[u8]
        ensures { result.now ≡ self.now }
    {
        self.bytes.as_slice()
    }
}
