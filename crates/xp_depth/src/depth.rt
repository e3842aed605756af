//! How deep a list of tokens is, read once from the left.
ghost use Rattle.std.specs.Prelude.{◌≡◌, ◌+◌, ◌≤◌, ◌<◌, [], length, reverse, IfOk, IfSome, MatchOption};
ghost use Rattle.xp_depth.specs.Depth as spec;
ghost use Rattle.xp_depth.specs.inner.Counted as kept;
ghost use Rattle.xp_base.specs.declared.limits.TheConstants.{DEPTH_LIMIT};

use std::alloc::{AllocError, Global};
use xp_base::DEPTH_LIMIT;
use xp_grammar::{Kind, token_kind};
use xp_token::{Mark, Token, Word};

/// What a token does to the depth.
#[derive(Clone, Copy, Debug)]
pub enum Role {
    Plain,
    /// It joins what stands around it.
    Joint,
    /// The bracket of a subscript or a type: a joint that opens a group.
    Bracket,
    Opening,
    Closing,
    /// It stands between two sections.
    Divider,
}

/// The part of a group that was read.
#[derive(Clone, Copy, Debug)]
pub struct Part {
    /// The joints directly in its last section.
    pub joints: u32,
    /// The greatest depth of a closed group directly in its last section.
    pub inner: u32,
    /// The greatest depth of the sections before.
    pub others: u32,
}

const NOTHING: Part = Part {
    joints: 0,
    inner: 0,
    others: 0,
};

/// What was read of each group that is open.
#[derive(Debug, Drop)]
struct Groups {
    part: Part,
    /// The parts of the groups around it, the outermost first.
    outer: Vec<Part>,
    /// How much these add to the depth of the part.
    above: u32,
    ghost counted: { above ≡ kept.added (reverse outer.items) },
    ghost fits: { above + spec.deepest part ≤ DEPTH_LIMIT },
    ghost around: { kept.around (reverse outer.items) ≤ DEPTH_LIMIT },
}

fn word_role(word: Word) -> Role
    ensures { result ≡ spec.word_role word }
{
    match word {
        Word::And
        | Word::Or
        | Word::Not
        | Word::Is
        | Word::Isnull
        | Word::Notnull
        | Word::Between
        | Word::In
        | Word::Like
        | Word::Ilike => Role::Joint,
        Word::Case => Role::Opening,
        Word::End => Role::Closing,
        Word::When | Word::Then | Word::Else | Word::Union => Role::Divider,
        _ => Role::Plain,
    }
}

fn mark_role(before: Kind, mark: Mark) -> Role
    ensures { result ≡ spec.mark_role before mark }
{
    match mark {
        Mark::DoubleColon => Role::Joint,
        Mark::OpenBracket => {
            if before == Kind::Word(Word::Array) {
                Role::Opening
            } else {
                Role::Bracket
            }
        }
        Mark::OpenParen => Role::Opening,
        Mark::CloseParen | Mark::CloseBracket => Role::Closing,
        Mark::Comma => Role::Divider,
        _ => Role::Plain,
    }
}

/// What a token of this kind does, where a token of the other kind stands before it.
fn role_of(before: Kind, kind: Kind) -> Role
    ensures { result ≡ spec.role_of before kind }
{
    match kind {
        Kind::Sign | Kind::Times | Kind::Power | Kind::Compare | Kind::Other | Kind::Arrow =>
            Role::Joint,
        Kind::Word(word) => word_role(word),
        Kind::Mark(mark) => mark_role(before, mark),
        _ => Role::Plain,
    }
}

impl Part {
    fn deepest(self) -> u32
        requires { spec.deepest self ≤ 1000 }
        ensures { result ≡ spec.deepest self }
    {
        self.others.max(self.joints + self.inner)
    }

    fn with_joint(self) -> Part
        requires { spec.deepest self ≤ 1000 }
        ensures { result ≡ spec.with_joint self }
    {
        Part {
            joints: self.joints + 1,
            ..self
        }
    }

    fn with_group(self, depth: u32) -> Part
        ensures { result ≡ spec.with_group depth self }
    {
        Part {
            inner: self.inner.max(depth),
            ..self
        }
    }

    fn divided(self) -> Part
        requires { spec.deepest self ≤ 1000 }
        ensures { result ≡ spec.divided self }
    {
        Part {
            others: self.deepest(),
            ..NOTHING
        }
    }
}

/// The groups, where they aren't too deep.
#[tactic(auto, using(crate::proofs::Deep::closed_is))]
fn within(part: Part, outer: Vec<Part>, above: u32) -> Option<Groups>
    requires counted { above ≡ kept.added (reverse outer.items) }
    requires around { kept.around (reverse outer.items) ≤ DEPTH_LIMIT }
    requires small { above + spec.deepest part ≤ 1000 }
    ensures { MatchOption result (DEPTH_LIMIT < spec.depth_of (kept.seen part outer.items)) (λ g. kept.seen g.part g.outer.items ≡ kept.seen part outer.items) }
{
    if above + part.deepest() > DEPTH_LIMIT {
        None
    } else {
        Some(Groups { part, outer, above })
    }
}

impl Groups {
    /// The whole list alone.
    fn new(alloc: Global) -> Groups
        ensures { kept.seen result.part result.outer.items ≡ spec.start }
    {
        Groups {
            part: NOTHING,
            outer: Vec::new(alloc),
            above: 0,
        }
    }

    /// With a joint more, where they aren't too deep.
    fn joined(self) -> Option<Groups>
        ensures { MatchOption result
            (DEPTH_LIMIT < spec.depth_of (spec.step Role.Joint (kept.seen self.part self.outer.items)))
            (λ g. kept.seen g.part g.outer.items ≡ spec.step Role.Joint (kept.seen self.part self.outer.items)) }
    {
        let Groups { part, outer, above } = self;
        within(part.with_joint(), outer, above)
    }

    /// With a group more, where they aren't too deep.
    fn entered(self) -> Result<Option<Groups>, AllocError>
        ensures { IfOk result (λ entered. MatchOption entered
            (DEPTH_LIMIT < spec.depth_of (spec.step Role.Opening (kept.seen self.part self.outer.items)))
            (λ g. kept.seen g.part g.outer.items ≡ spec.step Role.Opening (kept.seen self.part self.outer.items))) }
    {
        let Groups {
            part,
            mut outer,
            above,
        } = self;
        outer.push(part)?;
        Ok(within(NOTHING, outer, above + part.joints + 1))
    }

    /// Behind the innermost group.
    #[tactic(auto, using(crate::proofs::Deep::around_pushed, crate::proofs::Deep::added_pushed))]
    fn left(self) -> Groups
        ensures { kept.seen result.part result.outer.items ≡ spec.step Role.Closing (kept.seen self.part self.outer.items) }
    {
        let Groups {
            part,
            mut outer,
            above,
        } = self;
        let Some(last) = outer.pop() else {
            return Groups { part, outer, above };
        };
        Groups {
            part: last.with_group(part.deepest() + 1),
            outer,
            above: above - last.joints - 1,
        }
    }

    /// Behind the last section.
    fn divided(self) -> Groups
        ensures { kept.seen result.part result.outer.items ≡ spec.step Role.Divider (kept.seen self.part self.outer.items) }
    {
        let Groups { part, outer, above } = self;
        Groups {
            part: part.divided(),
            outer,
            above,
        }
    }

    /// The groups behind a token that does this, where they aren't too deep.
    fn read(self, role: Role) -> Result<Option<Groups>, AllocError>
        ensures { IfOk result (λ read. MatchOption read
            (DEPTH_LIMIT < spec.depth_of (spec.step role (kept.seen self.part self.outer.items)))
            (λ g. kept.seen g.part g.outer.items ≡ spec.step role (kept.seen self.part self.outer.items))) }
    {
        match role {
            Role::Plain => Ok(Some(self)),
            Role::Joint => Ok(self.joined()),
            Role::Bracket => match self.joined() {
                Some(groups) => groups.entered(),
                None => Ok(None),
            },
            Role::Opening => self.entered(),
            Role::Closing => Ok(Some(self.left())),
            Role::Divider => Ok(Some(self.divided())),
        }
    }
}

/// The place of the first token at which the depth passes its limit.
pub fn first_deep(alloc: Global, tokens: &[Token]) -> Result<Option<usize>, AllocError>
    ensures value { IfOk result (λ place. place ≡ spec.first_deep tokens.now) }
    ensures within { IfOk result (λ place. IfSome place (λ i. i < length tokens.now)) }
{
    let mut groups = Groups::new(alloc);
    let mut before = Kind::Nothing;
    for (at, token) in tokens.iter().enumerate() {
        let kind = token_kind(token);
        match groups.read(role_of(before, kind))? {
            Some(next) => groups = next,
            None => return Ok(Some(at)),
        }
        before = kind;
    }
    Ok(None)
}
