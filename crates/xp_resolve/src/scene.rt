//! What an expression is resolved over.
use std::marker::Model;
use xp_base::TypeNo;
use xp_catalog::{Catalog, Header};
use xp_tree::Checks;

/// The catalogue, the checks of its domains, the columns of the rows, the type of VALUE in a domain's
/// check, and the place of the statement's first token.
#[derive(Drop)]
pub struct Scene<'a> {
    c: &'a Catalog,
    k: &'a Checks,
    h: &'a Header,
    value: Option<TypeNo>,
    start: u64,
}

impl<'a> Model for Scene<'a> {
    ghost use Rattle.xp_resolve.specs.Scene.{Scene};
    ghost use Rattle.std.specs.Coded.{codes};
    ghost use Rattle.xp_tree.specs.contracts.tree.Tree as tree;

    ghost Value = { Scene };

    ghost coded = { Prim.hlevel (codes, tree.the_row.coded) };

    ghost view = { λ s. record { c = s.c.now; checks = s.k.now; columns = s.h.now; value = s.value; start = s.start } };
}

impl<'a> Scene<'a> {
    ghost use Rattle.std.specs.Prelude.{◌≡◌, None, Some};

    /// A statement of a script, which has no VALUE.
    pub fn new(c: &'a Catalog, k: &'a Checks, h: &'a Header, start: u64) -> Scene<'a>
        ensures { result ≡ record { c = c.now; checks = k.now; columns = h.now; value = None; start = start } }
    {
        Scene {
            c,
            k,
            h,
            value: None,
            start,
        }
    }

    /// The check of a domain over the type, beside columns, of which a check has none.
    pub fn of_check(c: &'a Catalog, k: &'a Checks, h: &'a Header, value: TypeNo) -> Scene<'a>
        ensures { result ≡ record { c = c.now; checks = k.now; columns = h.now; value = Some value; start = 0 } }
    {
        Scene {
            c,
            k,
            h,
            value: Some(value),
            start: 0,
        }
    }

    pub fn catalog(&self) -> &'a Catalog
        ensures { result.now ≡ self.now.c }
    {
        self.c
    }

    pub fn checks(&self) -> &'a Checks
        ensures { result.now ≡ self.now.checks }
    {
        self.k
    }

    pub fn header(&self) -> &'a Header
        ensures { result.now ≡ self.now.columns }
    {
        self.h
    }

    /// The type of VALUE, in a check.
    pub fn value(&self) -> Option<TypeNo>
        ensures { result ≡ self.now.value }
    {
        self.value
    }

    pub fn start(&self) -> u64
        ensures { result ≡ self.now.start }
    {
        self.start
    }
}
