//! The path from one type to another (manual 10.1, 10.4; CREATE CAST).
ghost use Rattle.std.specs.Prelude.{◌≡◌, ◌<◌, IfSome, length, option_map};
ghost use Rattle.xp_types.specs.Readers.{base, element, is_same};
ghost use Rattle.xp_types.specs.Within.{HasCast};
ghost use Rattle.xp_types.specs.Paths.{allowed_at, by_cast, by_elements, converts, first_rule, is_path, is_string, path, path_of_bases, serves, through_text};

use crate::readers::{base, category, element, is_domain, is_known};
use xp_base::{RowNo, TypeNo};
use xp_catalog::{Catalog, Context};

/// How a value of one type becomes one of another.
#[derive(Clone, Copy, Debug, PartialEq, Eq)]
pub enum PathKind {
    /// A literal without a type is read as the type.
    Literal,
    /// The types are the same.
    Same,
    /// The value stays: the types are one domain, or a domain and its base, or domains over one base.
    Relabel,
    /// By the cast of that row.
    Cast(RowNo),
    /// Element by element.
    Elements,
    /// By the text that stands for the value.
    ByOutput,
    /// By reading the text as a value of the type.
    ByInput,
    /// There is none.
    NoPath,
}

impl PathKind {
    pub fn is_path(self) -> bool
        ensures { result ≡ is_path self }
    {
        !matches!(self, PathKind::NoPath)
    }
}

/// Whether a cast of that context is allowed in another.
fn serves(context: Context, wanted: Context) -> bool
    ensures { result ≡ serves context wanted }
{
    match context {
        Context::Implicit => true,
        Context::Assignment => wanted != Context::Implicit,
        Context::Explicit => wanted == Context::Explicit,
    }
}

fn is_string(c: &Catalog, t: TypeNo) -> bool
    requires { t.0 < length c.now.types }
    ensures { result ≡ is_string c.now t }
{
    category(c, t) == b'S'
}

/// The path that the cast between the types decides, where there is one.
fn by_cast(c: &Catalog, wanted: Context, from: TypeNo, to: TypeNo) -> Option<PathKind>
    ensures value { result ≡ by_cast c.now wanted from to }
    ensures within { IfSome result (HasCast c.now) }
{
    let row = c.cast_between(from, to)?;
    if serves(c.cast_row(row).context, wanted) {
        Some(PathKind::Cast(row))
    } else {
        Some(PathKind::NoPath)
    }
}

/// The path through the text that stands for a value.
fn through_text(c: &Catalog, wanted: Context, from: TypeNo, to: TypeNo) -> PathKind
    requires from { from.0 < length c.now.types }
    requires to { to.0 < length c.now.types }
    ensures value { result ≡ through_text c.now wanted from to }
    ensures within { HasCast c.now result }
{
    if is_string(c, to) && serves(Context::Assignment, wanted) {
        PathKind::ByOutput
    } else if is_string(c, from) && serves(Context::Explicit, wanted) {
        PathKind::ByInput
    } else {
        PathKind::NoPath
    }
}

fn path_of_bases(
    c: &Catalog,
    wanted: Context,
    from: TypeNo,
    to: TypeNo,
    elements: Option<PathKind>,
) -> PathKind
    requires from { from.0 < length c.now.types }
    requires to { to.0 < length c.now.types }
    requires elements { IfSome elements (HasCast c.now) }
    ensures value { result ≡ path_of_bases c.now wanted from to elements }
    ensures within { HasCast c.now result }
{
    if let Some(path) = by_cast(c, wanted, from, to) {
        return path;
    }
    match elements {
        Some(path) => path,
        None => through_text(c, wanted, from, to),
    }
}

/// The first rule that applies, where it is known what the elements decide.
fn first_rule(
    c: &Catalog,
    wanted: Context,
    s: TypeNo,
    t: TypeNo,
    elements: Option<PathKind>,
) -> PathKind
    requires s { s.0 < length c.now.types }
    requires t { t.0 < length c.now.types }
    requires elements { IfSome elements (HasCast c.now) }
    ensures value { result ≡ first_rule c.now wanted s t elements }
    ensures within { HasCast c.now result }
{
    if !is_known(s) {
        return PathKind::Literal;
    }
    if s == t {
        return PathKind::Same;
    }
    let from = base(c, s);
    let to = base(c, t);
    if from == to {
        PathKind::Relabel
    } else {
        path_of_bases(c, wanted, from, to, elements)
    }
}

/// What the elements of two arrays decide, where neither is of a domain.
fn by_elements(
    c: &Catalog,
    wanted: Context,
    from: Option<TypeNo>,
    to: Option<TypeNo>,
) -> Option<PathKind>
    requires from { IfSome from (λ type. type.0 < length c.now.types) }
    requires to { IfSome to (λ type. type.0 < length c.now.types) }
    ensures value { result ≡ by_elements c.now wanted from to }
    ensures within { IfSome result (HasCast c.now) }
{
    let (s, t) = (from?, to?);
    if is_domain(c, s) || is_domain(c, t) {
        return None;
    }
    if first_rule(c, wanted, s, t, None).is_path() {
        Some(PathKind::Elements)
    } else {
        Some(PathKind::NoPath)
    }
}

/// The path from a type to another in a context.
pub fn path(c: &Catalog, s: TypeNo, t: TypeNo, context: Context) -> PathKind
    requires s { s.0 < length c.now.types }
    requires t { t.0 < length c.now.types }
    ensures value { result ≡ path c.now s t context }
    ensures within { HasCast c.now result }
{
    let from = element(c, base(c, s));
    let to = element(c, base(c, t));
    let elements = by_elements(c, context, from, to);
    first_rule(c, context, s, t, elements)
}

/// Whether there is an implicit path.
pub fn converts(c: &Catalog, s: TypeNo, t: TypeNo) -> bool
    requires s { s.0 < length c.now.types }
    requires t { t.0 < length c.now.types }
    ensures { result ≡ converts c.now s t }
{
    path(c, s, t, Context::Implicit).is_path()
}
