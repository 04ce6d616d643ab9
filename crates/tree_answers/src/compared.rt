//! What both ways answer about a text as one kind.

use crate::answer::{Answer, Place};
use crate::case::{Case, Kind, Question};
use crate::failure::Failure;
use crate::tally::Tally;
use syn::canon::{Canonical, canonical, same_form};
use syn::parse::ParseBuffer;
use syn::reader::{read_tokens, token_text};
use syn::token::TokenStream;
use syn_answers::answers::{canonical_by, derived_by, same_form_by};
use syn_recognize::{Rule, read_by};

/// Compares what is answered about the text as a `T`, by trees and by the rule that reads it, where it is asked about as the kind of
/// this word.
pub(crate) fn compare<T: Canonical + Drop>(
    case: &Case<'_>,
    word: &'static str,
    rule: Rule,
    tally: &mut Tally,
) -> Result<(), Failure> {
    if !case.is_asked_as(word) {
        return Ok(());
    }
    let kind = Kind { word, rule };
    compare_prints::<T>(case, &kind, tally)?;
    let Some(print) = print_of(case, rule)? else {
        return Ok(());
    };
    compare_forms::<T>(case, &kind, Question::LikePrint, &print, tally)?;
    compare_forms::<T>(case, &kind, Question::LikeBefore, case.before, tally)?;
    compare_forms::<T>(case, &kind, Question::BeforeLike, case.before, tally)
}

/// Compares the prints, and whether there is one.
fn compare_prints<T: Canonical + Drop>(
    case: &Case<'_>,
    kind: &Kind,
    tally: &mut Tally,
) -> Result<(), Failure> {
    let by_tree = printed_by_tree::<T>(case)?;
    let by_rule = printed_by_rule(case, kind.rule)?;
    tally.add(case, kind, Question::Print, &by_tree, &by_rule)?;
    let checked = checked_by_rule(case, kind.rule)?;
    tally.add(case, kind, Question::Check, &by_tree.as_check(), &checked)
}

fn printed_by_tree<T: Canonical + Drop>(case: &Case<'_>) -> Result<Answer, Failure> {
    let tokens = case.tokens.try_clone(case.alloc)?;
    Answer::of_print(case.alloc, &canonical::<T>(tokens))
}

fn printed_by_rule(case: &Case<'_>, rule: Rule) -> Result<Answer, Failure> {
    let tokens = case.tokens.try_clone(case.alloc)?;
    let answer = Answer::of_print(case.alloc, &canonical_by(rule, tokens))?;
    Ok(stopped(answer, rule, case.tokens))
}

fn checked_by_rule(case: &Case<'_>, rule: Rule) -> Result<Answer, Failure> {
    let tokens = case.tokens.try_clone(case.alloc)?;
    Ok(stopped(
        Answer::of_check(&derived_by(rule, tokens)),
        rule,
        case.tokens,
    ))
}

/// The same answer; where it is a refusal, with the byte at which reading stopped: faults that more than one token tells are told at
/// others.
fn stopped(answer: Answer, rule: Rule, tokens: &TokenStream) -> Answer {
    let Answer::Refused(place) = answer else {
        return answer;
    };
    match Answer::of_check(&read_whole(rule, tokens)) {
        Answer::Refused(stopped) => Answer::Refused(Place {
            reported: place.reported,
            stopped: stopped.reported,
            is_of_item: place.is_of_item,
        }),
        other => other,
    }
}

/// Reads the whole stream by the rule.
fn read_whole(rule: Rule, tokens: &TokenStream) -> syn::Result<()> {
    let mut input = ParseBuffer::new(tokens);
    read_by(rule, &mut input)?;
    input.finish()
}

/// Compares what is answered whether the text and another one have the same form.
fn compare_forms<T: Canonical + Drop>(
    case: &Case<'_>,
    kind: &Kind,
    question: Question,
    other: &TokenStream,
    tally: &mut Tally,
) -> Result<(), Failure> {
    let (left, right) = match question {
        Question::BeforeLike => (other, case.tokens),
        _ => (case.tokens, other),
    };
    let by_tree = form_by_tree::<T>(case, left, right)?;
    let by_rule = form_by_rule(case, kind.rule, left, right)?;
    tally.add(case, kind, question, &by_tree, &by_rule)
}

fn form_by_tree<T: Canonical + Drop>(
    case: &Case<'_>,
    left: &TokenStream,
    right: &TokenStream,
) -> Result<Answer, Failure> {
    let left = left.try_clone(case.alloc)?;
    let right = right.try_clone(case.alloc)?;
    Ok(Answer::of_form(&same_form::<T>(left, right)))
}

fn form_by_rule(
    case: &Case<'_>,
    rule: Rule,
    left: &TokenStream,
    right: &TokenStream,
) -> Result<Answer, Failure> {
    let copies = (left.try_clone(case.alloc)?, right.try_clone(case.alloc)?);
    let answer = Answer::of_form(&same_form_by(rule, copies.0, copies.1));
    let Answer::Refused(place) = answer else {
        return Ok(answer);
    };
    match stopped(Answer::Refused(place), rule, left) {
        Answer::Read => Ok(stopped(Answer::Refused(place), rule, right)),
        answer => Ok(answer),
    }
}

/// The tokens of the text of the canonical print, where there is one.
fn print_of(case: &Case<'_>, rule: Rule) -> Result<Option<TokenStream>, Failure> {
    let tokens = case.tokens.try_clone(case.alloc)?;
    match canonical_by(rule, tokens) {
        Ok(print) => Ok(Some(read_again(case, &print)?)),
        Err(_) => Ok(None),
    }
}

/// The tokens of the text of a stream.
fn read_again(case: &Case<'_>, tokens: &TokenStream) -> Result<TokenStream, Failure> {
    let text = token_text(tokens)?;
    Ok(read_tokens(case.alloc, text.as_str())?)
}
