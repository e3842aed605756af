//! Padded texts and booleans as texts.
ghost use Rattle.std.specs.Prelude.{◌≡◌, IfOk};
ghost use Rattle.xp_text.specs.Made.{truth as truth_of};
ghost use Rattle.xp_value.specs.Order.{unpadded as unpadded_of};

use std::alloc::Global;
use xp_base::{Memory, Txt};
use xp_value::unpadded;

/// Without the spaces at its end.
pub fn text_bpchar(alloc: Global, a: &str) -> Result<Txt, Memory>
    ensures { IfOk result (λ text. text ≡ unpadded_of a.now) }
{
    Txt::from_str(alloc, unpadded(a))
}

/// Without the spaces at its end.
pub fn varchar_bpchar(alloc: Global, a: &str) -> Result<Txt, Memory>
    ensures { IfOk result (λ text. text ≡ unpadded_of a.now) }
{
    text_bpchar(alloc, a)
}

fn truth(a: bool) -> &'static str
    ensures { result.now ≡ truth_of a }
{
    if a { "true" } else { "false" }
}

/// `true` or `false`.
pub fn text_bool(alloc: Global, a: bool) -> Result<Txt, Memory>
    ensures { IfOk result (λ text. text ≡ truth_of a) }
{
    Txt::from_str(alloc, truth(a))
}

/// `true` or `false`.
pub fn varchar_bool(alloc: Global, a: bool) -> Result<Txt, Memory>
    ensures { IfOk result (λ text. text ≡ truth_of a) }
{
    text_bool(alloc, a)
}

/// `true` or `false`, without padding.
pub fn bpchar_bool(alloc: Global, a: bool) -> Result<Txt, Memory>
    ensures { IfOk result (λ text. text ≡ truth_of a) }
{
    text_bool(alloc, a)
}
