//! How deep chains are: operators, postfixes and casts. A loop parses a chain, but its tree is as deep as the chain has links. So the links
//! are counted before: all that may be one up to the end of an element or a statement, and in addition those in its groups.
ghost use Rattle.std.specs.Prelude.{◌≡◌, IfErr};
ghost use Rattle.syn_grammar.specs.Run.{parse_rule};
ghost use Rattle.syn_parse.specs.Refusals.{IsSyntax};
ghost use Rattle.syn_recognize.specs.Names.{rule_of};

mod level;

use level::Level;
use std::alloc::AllocError;
use std::mem::replace;
use syn_parse::buffer::ParseBuffer;
use syn_parse::limits::{EXPRESSION, LINK};
use syn_parse::read::refusal::{Parsed, Refusal};
use syn_recognize::{Rule, read_by};
use syn_tokens::span::Span;

/// How much a link takes in a trial build, in KiB. Copies of trees have the largest frames there: a copy takes up to 39 a link.
const IN_TRIALS: u32 = 4 * LINK;

/// Fails if the tokens that the rule parses next have more nested links than the stack has room for. If the remaining tokens of
/// the buffer have too many, the recognizer of the rule, which makes no tree, finds where the rule ends: the tokens after it
/// don't count, and tokens that the rule doesn't match are a syntax error. The result is kept in the buffer if no remaining
/// token is too deep.
pub fn refuse_long_chains(rule: Rule, input: &mut ParseBuffer<'_>) -> Parsed<()>
    ensures refused { IfErr result (λ e. IsSyntax e → parse_rule (rule_of rule) input.old ≡ None) }
    ensures unchanged { input.new ≡ input.old }
{
    if input.chains_fit() {
        return Ok(());
    }
    if too_deep_link(input, 0)?.is_none() {
        input.set_chains_fit();
        return Ok(());
    }
    let mut end = input.fork();
    read_by(rule, &mut end)?;
    match too_deep_link(input, end.cursor().len())? {
        Some(span) => Err(Refusal::TooDeep(span)),
        None => Ok(()),
    }
}

/// The first link that is nested too deep for the stack, in the tokens up to where so many trees remain. The tokens are passed
/// once, and no stack is used. Groups that are nested deeper than expressions may be are not counted: they are not parsed.
fn too_deep_link(input: &ParseBuffer<'_>, remaining: usize) -> Result<Option<Span>, AllocError> {
    let most = input.stack_left() / IN_TRIALS;
    let levels = input.stack_left() / EXPRESSION;
    let mut trees = input.cursor().len().saturating_sub(remaining);
    let mut outside: Vec<Level<'_>> = Vec::new(input.alloc());
    let mut here = Level::new(input.cursor());
    'trees: loop {
        if outside.is_empty() {
            if trees == 0 {
                return Ok(None);
            }
            trees -= 1;
        }
        let Some((tree, rest)) = here.rest.split() else {
            let Some(around) = outside.pop() else {
                return Ok(None);
            };
            let inner = replace(&mut here, around);
            here.close(&inner);
            if here.unended() > most {
                return Ok(Some(inner.opening));
            }
            continue 'trees;
        };
        here.rest = rest;
        let span = tree.span();
        let inner = here.see(tree);
        if here.unended() > most {
            return Ok(Some(span));
        }
        match inner {
            Some(inner) if outside.len() < levels as usize => {
                outside.push(replace(&mut here, inner))?;
            }
            _ => {}
        }
    }
}
