//! Parsers of bodies: of what is in braces, with the inner attributes at its beginning.
ghost use Rattle.std.specs.Prelude.{◌≡◌, IfOk};
ghost use Rattle.syn_grammar.specs.Rules as rules;
ghost use Rattle.syn_lower.specs.Attributes.{all_attributes_syntax, attributes_syntax};
ghost use Rattle.syn_lower.specs.Bodies.{attributes_before_body, attributes_in_body, body as body_syntax};
ghost use Rattle.syn_lower.specs.Parsing.{parse_rule, Computes, Moved, Kept, IsSyntax};

use syn_lower::Attribute;
use syn_lower::attr::inner_attributes;
use syn_parse::buffer::ParseBuffer;
use syn_parse::read::refusal::Parsed;
use syn_recognize::deferred::{DeferredBlock, read_deferred_rest};
use syn_tokens::token::kind;

/// The inner attributes that are next, after these outer ones in one list.
#[tactic(auto, using(crate::proofs::BodyForms::outer_present_before, crate::proofs::BodyForms::inner_present_inside))]
pub(crate) fn with_inner(
    attrs: Vec<Attribute>,
    input: &mut ParseBuffer<'_>,
) -> Parsed<Vec<Attribute>>
    requires outer { all_attributes_syntax attrs.items ≡ attributes_syntax attrs.items }
    ensures reads { Computes IsSyntax (λ v. attributes_in_body v.items) (parse_rule rules.inner_attributes input.old) result input.new }
    ensures before { IfOk result (λ v. attributes_before_body v.items ≡ attributes_syntax attrs.items) }
    ensures kept { Kept input.old result input.new }
{
    let mut attrs = attrs;
    let mut inner = inner_attributes(input)?;
    attrs.append(&mut inner)?;
    Ok(attrs)
}

/// A body: inner attributes and statements in braces. The inner attributes follow these outer ones in the list that is returned.
#[tactic(auto, using(crate::proofs::BodyForms::body_read), unfolding(syn_grammar::specs::Take::is_end))]
pub(crate) fn body(
    attrs: Vec<Attribute>,
    input: &mut ParseBuffer<'_>,
) -> Parsed<(Vec<Attribute>, DeferredBlock)>
    requires outer { all_attributes_syntax attrs.items ≡ attributes_syntax attrs.items }
    ensures reads { Computes IsSyntax (λ p. body_syntax p.0.items p.1) (parse_rule rules.body input.old) result input.new }
    ensures before { IfOk result (λ p. attributes_before_body p.0.items ≡ attributes_syntax attrs.items) }
    ensures moved { Moved input.old result input.new }
{
    let (brace_token, mut content) = input.read_group::<kind::Brace>()?;
    let attrs = with_inner(attrs, &mut content)?;
    let stmts = read_deferred_rest(&mut content)?;
    Ok((attrs, DeferredBlock { brace_token, stmts }))
}
