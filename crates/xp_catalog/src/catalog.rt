//! The catalogue and its look-ups.
ghost use Rattle.std.specs.Prelude.{◌≡◌, ◌<◌, [], ◌∷◌, ◌++◌, IfOk, IfSome, Some, length, slice_get, true};
ghost use Rattle.xp_catalog.specs.Contents.{added, first_contents};
ghost use Rattle.xp_catalog.specs.Known.{IsKnownCast, IsKnownDomain, IsKnownFunc, IsKnownKind, IsKnownOper, IsKnownRange};
ghost use Rattle.xp_catalog.specs.Lookups.{cast_between, func_at, oper_at, type_named};
ghost use Rattle.xp_catalog.specs.Rules.{keeps_rules};
ghost use Rattle.xp_catalog.specs.WellFormed.{HasRoom, IsWellFormed};

use crate::lookups::{place_of_cast, place_of_func, place_of_oper, place_of_type};
use crate::types::{category_at, first_row, pushed, with_array, with_type};
use crate::{CastRow, DomainRow, FuncRow, OperRow, RangeRow, Record, TypeKind, TypeRow};
use sqlite_items::Items;
use std::alloc::Global;
use std::marker::Model;
use xp_base::{Byts, Memory, Name, RowNo, TypeNo};

/// The rows of at most 20,000 records, which contracts see as six lists in file order. Every record
/// keeps the rules against those before it.
#[derive(Debug, Drop)]
pub struct Catalog {
    alloc: Global,
    types: Items<TypeRow>,
    casts: Items<CastRow>,
    funcs: Items<FuncRow>,
    opers: Items<OperRow>,
    domains: Items<DomainRow>,
    ranges: Items<RangeRow>,
}

impl Model for Catalog {
    ghost use Rattle.xp_catalog.specs.Contents.{Contents};
    ghost use Rattle.xp_catalog.specs.WellFormed.{IsWellFormed};

    ghost Value = { Contents };

    ghost view = { λ c. record { types = c.types; casts = c.casts; funcs = c.funcs; opers = c.opers; domains = c.domains; ranges = c.ranges } };

    ghost invariant = { λ c. IsWellFormed (record { types = c.types; casts = c.casts; funcs = c.funcs; opers = c.opers; domains = c.domains; ranges = c.ranges }) };
}

/// How many rows there are.
#[derive(Clone, Copy, Debug, PartialEq, Eq)]
pub struct Counts {
    pub types: u32,
    pub casts: u32,
    pub funcs: u32,
    pub opers: u32,
    pub domains: u32,
    pub ranges: u32,
}

impl Catalog {
    /// The type of that name. `unknown` can't be named.
    pub fn type_named(&self, name: &str) -> Option<TypeNo>
        ensures value { result ≡ type_named self.now name.now }
        ensures within { IfSome result (λ type. type.0 < length self.now.types) }
    {
        if name == "unknown" {
            return None;
        }
        Some(TypeNo(place_of_type(self.types.as_slice(), name.as_bytes())? as u32))
    }

    /// The cast from one type to the other.
    pub fn cast_between(&self, from: TypeNo, to: TypeNo) -> Option<RowNo>
        ensures value { result ≡ cast_between self.now from to }
        ensures within { IfSome result (λ row. row.0 < length self.now.casts) }
    {
        Some(RowNo(place_of_cast(self.casts.as_slice(), from, to)? as u32))
    }

    /// The function of that name with exactly these arguments.
    pub fn func_at(&self, name: &str, args: &[TypeNo]) -> Option<RowNo>
        ensures value { result ≡ func_at self.now name.now args.now }
        ensures within { IfSome result (λ row. row.0 < length self.now.funcs) }
    {
        Some(RowNo(place_of_func(self.funcs.as_slice(), name.as_bytes(), args)? as u32))
    }

    /// The operator of that name with exactly these operands: one for a prefix operator, else left
    /// and right.
    pub fn oper_at(&self, name: &str, args: &[TypeNo]) -> Option<RowNo>
        ensures value { result ≡ oper_at self.now name.now args.now }
        ensures within { IfSome result (λ row. row.0 < length self.now.opers) }
    {
        Some(RowNo(place_of_oper(self.opers.as_slice(), name.as_bytes(), args)? as u32))
    }

    pub fn type_row(&self, ty: TypeNo) -> &TypeRow
        requires { ty.0 < length self.now.types }
        ensures row { slice_get self.now.types ty.0 ≡ Some result.now }
        ensures known { IsKnownKind self.now result.now.kind }
    {
        &self.types.as_slice()[ty.0 as usize]
    }

    pub fn cast_row(&self, row: RowNo) -> &CastRow
        requires { row.0 < length self.now.casts }
        ensures row { slice_get self.now.casts row.0 ≡ Some result.now }
        ensures known { IsKnownCast self.now result.now }
    {
        &self.casts.as_slice()[row.0 as usize]
    }

    pub fn func_row(&self, row: RowNo) -> &FuncRow
        requires { row.0 < length self.now.funcs }
        ensures row { slice_get self.now.funcs row.0 ≡ Some result.now }
        ensures known { IsKnownFunc self.now result.now }
    {
        &self.funcs.as_slice()[row.0 as usize]
    }

    pub fn oper_row(&self, row: RowNo) -> &OperRow
        requires { row.0 < length self.now.opers }
        ensures row { slice_get self.now.opers row.0 ≡ Some result.now }
        ensures known { IsKnownOper self.now result.now }
    {
        &self.opers.as_slice()[row.0 as usize]
    }

    pub fn domain_row(&self, row: RowNo) -> &DomainRow
        requires { row.0 < length self.now.domains }
        ensures row { slice_get self.now.domains row.0 ≡ Some result.now }
        ensures known { IsKnownDomain self.now result.now }
    {
        &self.domains.as_slice()[row.0 as usize]
    }

    pub fn range_row(&self, row: RowNo) -> &RangeRow
        requires { row.0 < length self.now.ranges }
        ensures row { slice_get self.now.ranges row.0 ≡ Some result.now }
        ensures known { IsKnownRange self.now result.now }
    {
        &self.ranges.as_slice()[row.0 as usize]
    }

    /// A law: the catalogue is made of records that keep the rules. It does nothing: a proof is told so
    /// where it is called.
    pub fn is_well_formed_law(&self)
        ensures { IsWellFormed self.now }
    {
        let _counts = self.counts();
    }

    /// The numbers of rows, and that the catalogue is made of records that keep the rules.
    pub fn counts(&self) -> Counts
        ensures types { result.types ≡ length self.now.types }
        ensures casts { result.casts ≡ length self.now.casts }
        ensures funcs { result.funcs ≡ length self.now.funcs }
        ensures opers { result.opers ≡ length self.now.opers }
        ensures domains { result.domains ≡ length self.now.domains }
        ensures ranges { result.ranges ≡ length self.now.ranges }
        ensures rules { IsWellFormed self.now }
    {
        Counts {
            types: self.types.len() as u32,
            casts: self.casts.len() as u32,
            funcs: self.funcs.len() as u32,
            opers: self.opers.len() as u32,
            domains: self.domains.len() as u32,
            ranges: self.ranges.len() as u32,
        }
    }

    /// The type `unknown` alone.
    pub fn empty(alloc: Global) -> Result<Catalog, Memory>
        ensures { IfOk result (λ c. c ≡ first_contents) }
    {
        let row = first_row(alloc)?;
        Ok(Catalog {
            alloc,
            types: pushed(Items::new(alloc), row)?,
            casts: Items::new(alloc),
            funcs: Items::new(alloc),
            opers: Items::new(alloc),
            domains: Items::new(alloc),
            ranges: Items::new(alloc),
        })
    }

    /// The catalogue with the rows of a record behind it. It is given up where memory is wanting.
    pub fn add(self, r: Record) -> Result<Catalog, Memory>
        requires keeps { keeps_rules self r ≡ true }
        requires room { HasRoom self }
        ensures { IfOk result (λ c. c ≡ added self r) }
    {
        match r {
            Record::Plain {
                name,
                category,
                preferred,
                line,
            } => self.add_plain(name, category, preferred, line),
            Record::Range {
                name,
                subtype,
                line,
            } => self.add_range(name, subtype, line),
            Record::Domain {
                name,
                base,
                not_null,
                check,
                line,
            } => self.add_domain(name, base, not_null, check, line),
            Record::Cast(row) => self.add_cast(row),
            Record::Function(row) => self.add_func(row),
            Record::Operator(row) => self.add_oper(row),
        }
    }

    fn add_plain(
        self,
        name: Name,
        category: u8,
        preferred: bool,
        line: u32,
    ) -> Result<Catalog, Memory>
        requires keeps { keeps_rules self (Record.Plain name category preferred line) ≡ true }
        requires room { HasRoom self }
        ensures { IfOk result (λ c. c ≡ added self (Record.Plain name category preferred line)) }
    {
        Ok(Catalog {
            types: with_type(self.alloc, self.types, name, category, preferred, line)?,
            ..self
        })
    }

    fn add_range(self, name: Name, subtype: TypeNo, line: u32) -> Result<Catalog, Memory>
        requires keeps { keeps_rules self (Record.Range name subtype line) ≡ true }
        requires room { HasRoom self }
        ensures { IfOk result (λ c. c ≡ added self (Record.Range name subtype line)) }
    {
        let ty = TypeNo(self.types.len() as u32);
        let row = TypeRow {
            name: Name::from_str(self.alloc, name.as_str())?,
            category: b'R',
            preferred: false,
            kind: TypeKind::Range {
                row: RowNo(self.ranges.len() as u32),
            },
            line,
        };
        let range = RangeRow {
            name,
            ty,
            subtype,
            line,
        };
        Ok(Catalog {
            types: with_array(self.alloc, self.types, row)?,
            ranges: pushed(self.ranges, range)?,
            ..self
        })
    }

    fn add_domain(
        self,
        name: Name,
        base: TypeNo,
        not_null: bool,
        check: Byts,
        line: u32,
    ) -> Result<Catalog, Memory>
        requires keeps { keeps_rules self (Record.Domain name base not_null check line) ≡ true }
        requires room { HasRoom self }
        ensures { IfOk result (λ c. c ≡ added self (Record.Domain name base not_null check line)) }
    {
        let ty = TypeNo(self.types.len() as u32);
        let row = TypeRow {
            name: Name::from_str(self.alloc, name.as_str())?,
            category: category_at(self.types.as_slice(), base),
            preferred: false,
            kind: TypeKind::Domain {
                row: RowNo(self.domains.len() as u32),
            },
            line,
        };
        let domain = DomainRow {
            name,
            ty,
            base,
            not_null,
            check,
            line,
        };
        Ok(Catalog {
            types: with_array(self.alloc, self.types, row)?,
            domains: pushed(self.domains, domain)?,
            ..self
        })
    }

    fn add_cast(self, row: CastRow) -> Result<Catalog, Memory>
        requires keeps { keeps_rules self (Record.Cast row) ≡ true }
        requires room { HasRoom self }
        ensures { IfOk result (λ c. c ≡ added self (Record.Cast row)) }
    {
        Ok(Catalog {
            casts: pushed(self.casts, row)?,
            ..self
        })
    }

    fn add_func(self, row: FuncRow) -> Result<Catalog, Memory>
        requires keeps { keeps_rules self (Record.Function row) ≡ true }
        requires room { HasRoom self }
        ensures { IfOk result (λ c. c ≡ added self (Record.Function row)) }
    {
        Ok(Catalog {
            funcs: pushed(self.funcs, row)?,
            ..self
        })
    }

    fn add_oper(self, row: OperRow) -> Result<Catalog, Memory>
        requires keeps { keeps_rules self (Record.Operator row) ≡ true }
        requires room { HasRoom self }
        ensures { IfOk result (λ c. c ≡ added self (Record.Operator row)) }
    {
        Ok(Catalog {
            opers: pushed(self.opers, row)?,
            ..self
        })
    }
}
