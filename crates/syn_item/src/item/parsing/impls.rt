//! Impls among items.
ghost use Rattle.std.specs.Prelude.{◌≡◌, true};
ghost use Rattle.syn_grammar.specs.ItemPlan as plan;
ghost use Rattle.syn_grammar.specs.Plan.{run_plan};
ghost use Rattle.syn_grammar.specs.Rules as rules;
ghost use Rattle.syn_grammar.specs.Table.{at_brace, at_where};
ghost use Rattle.syn_grammar.specs.Take.{sees};
ghost use Rattle.syn_grammar.specs.Tokens.{Stream, ◌or_else◌};
ghost use Rattle.syn_lower.specs.Attributes.{all_attributes_syntax, attributes_syntax};
ghost use Rattle.syn_lower.specs.Parsing.{IsSyntax};
ghost use Rattle.syn_tokens.specs.Kinds.{const_syntax, unsafe_syntax};
ghost use Rattle.syn_tokens.specs.Leaves.{maybe};
ghost use Rattle.syn_item.specs.Items.{syntax_of_Item};
ghost use Rattle.syn_item.specs.ItemStages.{bare_impl_plan_of, impl_after_marks, lone_word_plan};
ghost use Rattle.syn_item.specs.ItemTurns.{default_impl_turn, default_next};
ghost use Rattle.syn_item.specs.Planned.{Follows};

use super::Begun;
use crate::impls::{ImplMarks, ImplTypes, impl_end, impl_generics, impl_or_kept};
use crate::item::Item;
use syn_lower::Generics;
use syn_parse::buffer::ParseBuffer;
use syn_parse::read::refusal::Parsed;
use syn_recognize::item_looks::{at_in_restriction, at_lone_word};
use syn_tokens::token::{Brace, Const, For, Unsafe, Where};

/// An impl after its `const` and `unsafe`, each of them or not; `None` where it is kept verbatim: of what is no plain path for a type.
#[tactic(auto, using(crate::proofs::ItemImpls::word_refused))]
pub(super) fn impl_after(
    begun: Begun,
    constness: Option<Const>,
    unsafety: Option<Unsafe>,
    input: &mut ParseBuffer<'_>,
) -> Parsed<Option<Item>>
    requires outer { all_attributes_syntax begun.attrs.items ≡ attributes_syntax begun.attrs.items }
    ensures follows { (ts : Stream) → Follows IsSyntax syntax_of_Item rules.kept_item ts (run_plan (plan.impl_plan (attributes_syntax begun.attrs.items) plan.absent (maybe const_syntax constness) (maybe unsafe_syntax unsafety)) rules.kept_item ts input.old) result input.new }
{
    let marks = ImplMarks {
        attrs: begun.attrs,
        defaultness: None,
        constness,
        unsafety,
        impl_token: input.read()?,
    };
    after_marks(marks, input)
}

/// An impl that begins with `default`.
#[tactic(auto, using(crate::proofs::ItemImpls::default_refused, crate::proofs::ItemImpls::const_refused, crate::proofs::ItemImpls::unsafe_refused))]
pub(super) fn default_impl(begun: Begun, input: &mut ParseBuffer<'_>) -> Parsed<Option<Item>>
    requires outer { all_attributes_syntax begun.attrs.items ≡ attributes_syntax begun.attrs.items }
    requires next { default_next input.old ≡ true }
    ensures follows { (ts : Stream) → Follows IsSyntax syntax_of_Item rules.kept_item ts (run_plan (default_impl_turn (attributes_syntax begun.attrs.items)) rules.kept_item ts input.old) result input.new }
{
    let marks = ImplMarks {
        attrs: begun.attrs,
        defaultness: input.read()?,
        constness: input.read()?,
        unsafety: input.read()?,
        impl_token: input.read()?,
    };
    after_marks(marks, input)
}

/// An impl, after its word; `None` where it is kept verbatim.
#[tactic(auto, using(crate::proofs::ItemImpls::list_refused))]
fn after_marks(marks: ImplMarks, input: &mut ParseBuffer<'_>) -> Parsed<Option<Item>>
    requires outer { all_attributes_syntax marks.attrs.items ≡ attributes_syntax marks.attrs.items }
    ensures follows { (ts : Stream) → Follows IsSyntax syntax_of_Item rules.kept_item ts (run_plan (impl_after_marks marks) rules.kept_item ts input.old) result input.new }
{
    let generics = impl_generics(input)?;
    match impl_or_kept(marks, generics, input)? {
        Some(item) => Ok(Some(Item::Impl(item))),
        None => Ok(None),
    }
}

/// What begins with `impl`: an impl, or, kept verbatim, a trait after a restriction in parentheses. After a visibility it is no impl.
#[tactic(auto, using(crate::proofs::ItemImpls::visible_kept, crate::proofs::ItemImpls::bare_refused, crate::proofs::ItemImpls::restriction_kept))]
pub(super) fn bare_impl(begun: Begun, input: &mut ParseBuffer<'_>) -> Parsed<Option<Item>>
    requires outer { all_attributes_syntax begun.attrs.items ≡ attributes_syntax begun.attrs.items }
    ensures follows { (ts : Stream) → Follows IsSyntax syntax_of_Item rules.kept_item ts (run_plan (bare_impl_plan_of begun) rules.kept_item ts input.old) result input.new }
{
    if !begun.is_plain() {
        return Ok(None);
    }
    let marks = ImplMarks {
        attrs: begun.attrs,
        defaultness: None,
        constness: None,
        unsafety: None,
        impl_token: input.read()?,
    };
    if at_in_restriction(input) {
        return Ok(None);
    }
    if at_lone_word(input) {
        return impl_of_parentheses(marks, input);
    }
    after_marks(marks, input)
}

/// An impl of a type in parentheses that hold one word; `None` where these are a trait's restriction, or are before `for`.
#[tactic(auto, using(crate::proofs::ItemImpls::lone_refused, crate::proofs::ItemImpls::lone_end_refused))]
fn impl_of_parentheses(marks: ImplMarks, input: &mut ParseBuffer<'_>) -> Parsed<Option<Item>>
    requires outer { all_attributes_syntax marks.attrs.items ≡ attributes_syntax marks.attrs.items }
    requires next { sees plan.at_lone_word input.old ≡ true }
    ensures follows { (ts : Stream) → Follows IsSyntax syntax_of_Item rules.kept_item ts (run_plan (lone_word_plan marks) rules.kept_item ts input.old) result input.new }
{
    let self_ty = input.read()?;
    if input.peek::<For>() {
        return Ok(None);
    }
    if !at_impl_end(input) {
        return Ok(None);
    }
    let generics = Generics::empty(input.alloc());
    let types = ImplTypes {
        polarity: None,
        trait_: None,
        self_ty,
    };
    let item = impl_end(marks, generics, types, input)?;
    Ok(Some(Item::Impl(item)))
}

/// Whether what ends an impl is next: `where`, or braces.
#[tactic(auto, using(syn_grammar::proofs::Looks::sees_or))]
fn at_impl_end(input: &ParseBuffer<'_>) -> bool
    ensures { result ≡ sees (at_where or_else at_brace) input.now }
{
    input.peek::<Where>() || input.peek::<Brace>()
}
