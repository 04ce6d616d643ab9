//! Traits and trait aliases among items.
ghost use Rattle.std.specs.Prelude.{◌≡◌};
ghost use Rattle.syn_grammar.specs.Grammar.{Left};
ghost use Rattle.syn_grammar.specs.Run.{wrap};
ghost use Rattle.syn_grammar.specs.ItemPlan as plan;
ghost use Rattle.syn_grammar.specs.Plan.{run_plan};
ghost use Rattle.syn_grammar.specs.Rules as rules;
ghost use Rattle.syn_grammar.specs.Tokens.{Stream};
ghost use Rattle.syn_lower.specs.Attributes.{all_attributes_syntax, attributes_syntax};
ghost use Rattle.syn_lower.specs.Parsing.{itself, parse_form, Computes, IsSyntax, Moved};
ghost use Rattle.syn_tokens.specs.Kinds.{const_syntax, unsafe_syntax};
ghost use Rattle.syn_tokens.specs.Leaves.{maybe};
ghost use Rattle.syn_tree.specs.Restriction.{syntax_of_Visibility};
ghost use Rattle.syn_item.specs.ItemForms.{bounds_end_form};
ghost use Rattle.syn_item.specs.Items.{syntax_of_Item};
ghost use Rattle.syn_item.specs.Planned.{Follows};
ghost use Rattle.syn_item.specs.TraitForms.{alias_of};

use super::Begun;
use crate::item::Item;
use crate::simple::{ItemTraitAlias, aliased_bounds};
use crate::traits::{TraitHead, TraitMarks, named_trait, trait_end, unmarked_trait};
use syn_parse::buffer::ParseBuffer;
use syn_parse::read::refusal::Parsed;
use syn_tokens::token::{Const, Eq, Unsafe};

/// A trait after its `const` and `unsafe`, each of them or not.
#[tactic(auto, using(crate::proofs::ItemTraits::trait_refused))]
pub(super) fn trait_after(
    begun: Begun,
    constness: Option<Const>,
    unsafety: Option<Unsafe>,
    input: &mut ParseBuffer<'_>,
) -> Parsed<Option<Item>>
    requires outer { all_attributes_syntax begun.attrs.items ≡ attributes_syntax begun.attrs.items }
    ensures follows { (ts : Stream) → Follows IsSyntax syntax_of_Item rules.kept_item ts (run_plan (plan.trait_plan (attributes_syntax begun.attrs.items) (syntax_of_Visibility begun.vis) (maybe const_syntax constness) (maybe unsafe_syntax unsafety)) rules.kept_item ts input.old) result input.new }
{
    let marks = TraitMarks {
        attrs: begun.attrs,
        vis: begun.vis,
        constness,
        unsafety,
    };
    let item = unmarked_trait(marks, input)?;
    Ok(Some(Item::Trait(item)))
}

/// A trait or a trait alias, which begins with `trait`.
#[tactic(auto, using(crate::proofs::ItemTraits::head_refused))]
pub(super) fn trait_or_alias(begun: Begun, input: &mut ParseBuffer<'_>) -> Parsed<Option<Item>>
    requires outer { all_attributes_syntax begun.attrs.items ≡ attributes_syntax begun.attrs.items }
    ensures follows { (ts : Stream) → Follows IsSyntax syntax_of_Item rules.kept_item ts (run_plan (plan.trait_or_alias (attributes_syntax begun.attrs.items) (syntax_of_Visibility begun.vis)) rules.kept_item ts input.old) result input.new }
{
    let (trait_token, ident, generics) = named_trait(input)?;
    let marks = TraitMarks {
        attrs: begun.attrs,
        vis: begun.vis,
        constness: None,
        unsafety: None,
    };
    let head = TraitHead {
        marks,
        auto_token: None,
        trait_token,
        ident,
        generics,
    };
    if input.peek::<Eq>() {
        let item = trait_alias(head, input)?;
        return Ok(Some(Item::TraitAlias(item)));
    }
    let item = trait_end(head, input)?;
    Ok(Some(Item::Trait(item)))
}

/// The same after `const`; `None` where it is kept verbatim: as an alias.
#[tactic(auto, using(crate::proofs::ItemTraits::const_head_refused))]
pub(super) fn const_trait(
    begun: Begun,
    const_token: Const,
    input: &mut ParseBuffer<'_>,
) -> Parsed<Option<Item>>
    requires outer { all_attributes_syntax begun.attrs.items ≡ attributes_syntax begun.attrs.items }
    ensures follows { (ts : Stream) → Follows IsSyntax syntax_of_Item rules.kept_item ts (run_plan (plan.const_trait_or_alias (attributes_syntax begun.attrs.items) (syntax_of_Visibility begun.vis) (Left (const_syntax const_token))) rules.kept_item ts input.old) result input.new }
{
    let (trait_token, ident, generics) = named_trait(input)?;
    let marks = TraitMarks {
        attrs: begun.attrs,
        vis: begun.vis,
        constness: Some(const_token),
        unsafety: None,
    };
    let head = TraitHead {
        marks,
        auto_token: None,
        trait_token,
        ident,
        generics,
    };
    if input.peek::<Eq>() {
        return Ok(None);
    }
    let item = trait_end(head, input)?;
    Ok(Some(Item::Trait(item)))
}

/// A trait alias, after its generics.
fn trait_alias(head: TraitHead, input: &mut ParseBuffer<'_>) -> Parsed<ItemTraitAlias>
    ensures reads { Computes IsSyntax itself (wrap (alias_of head) (parse_form bounds_end_form input.old)) result input.new }
    ensures moved { Moved input.old result input.new }
{
    let (eq_token, bounds, where_clause, semi_token) = aliased_bounds(input)?;
    Ok(ItemTraitAlias {
        attrs: head.marks.attrs,
        vis: head.marks.vis,
        trait_token: head.trait_token,
        ident: head.ident,
        generics: head.generics.with_where(where_clause),
        eq_token,
        bounds,
        semi_token,
    })
}
