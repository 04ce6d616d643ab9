//! The name of a parameter, which is supplied where it is left out.
ghost use Rattle.std.specs.Prelude.{◌≡◌, true, OnOk};
ghost use Rattle.syn_grammar.specs.Tokens.{Before_less};
ghost use Rattle.syn_grammar.specs.Grammar.{at_unnamed};
ghost use Rattle.syn_grammar.specs.Take.{sees};
ghost use Rattle.syn_recognize.specs.Forms.{grammar_of};
ghost use Rattle.syn_recognize.specs.Supplied.{supplied_form, typed_form, Unnamed};
ghost use Rattle.syn_recognize.specs.Copies.{copy_form};
ghost use Rattle.syn_recognize.specs.Steps.{Steps};
ghost use Rattle.syn_recognize.specs.Stops.{IsFault};

use crate::form::Form;
use crate::item_looks::at_unnamed;
use crate::look::Look;
use crate::rules::Rule;
use crate::step::Step;
use crate::stop::Stepped;
use crate::words::Mark;
use crate::writer::Writer;
use std::alloc::AllocError;
use syn_parse::buffer::ParseBuffer;
use syn_tokens::punct::Spacing;

/// What follows the name of a parameter and its colon.
#[derive(Clone, Copy)]
pub enum Nameless {
    /// A type.
    Argument,
    /// `...`, or a type and the parameters after it.
    Input,
}

static PATTERN: Form = Form::Rule(Rule::PATTERN);

static COLON: Form = Form::Mark(Mark::Colon);

static ARGUMENT: Form = Form::Rule(Rule::TYPE);

static INPUT: Form = Form::When(
    Look::Mark(Mark::DotDotDot),
    &Form::Rule(Rule::VARIADIC),
    &Form::Then(
        &Form::Rule(Rule::TYPE),
        &Form::When(
            Look::Mark(Mark::Comma),
            &Form::Then(&Form::Mark(Mark::Comma), &Form::Rule(Rule::LATER_INPUTS)),
            &Form::Empty,
        ),
    ),
);

/// What follows the name and its colon, as a form.
#[tactic(auto, unfolding(crate::specs::Names::rule_of))]
fn typed(nameless: Nameless) -> &'static Form
    ensures { grammar_of result.now ≡ typed_form nameless }
{
    match nameless {
        Nameless::Argument => &ARGUMENT,
        Nameless::Input => &INPUT,
    }
}

/// Reads a pattern, a colon and what follows them. Where a name is before `<`, reads only what follows, and writes `_ :` before it.
#[tactic(auto, unfolding(crate::specs::Names::rule_of))]
pub(crate) fn read_supplied<'a>(
    nameless: Nameless,
    steps: &mut Vec<Step<'a>>,
    out: &mut Writer,
    input: &ParseBuffer<'a>,
) -> Stepped<()>
    ensures { Steps IsFault steps.old.items (copy_form (supplied_form nameless) out.old input.now) result steps.new.items out.new input.now }
{
    if at_unnamed(input) {
        write_unnamed(out, input)?;
        steps.push(Step::Form(typed(nameless)))?;
        return Ok(());
    }
    steps.push(Step::Form(typed(nameless)))?;
    steps.push(Step::Form(&COLON))?;
    steps.push(Step::Form(&PATTERN))?;
    Ok(())
}

/// Writes `_ :`, with the span of the name that is next.
#[tactic(auto, unfolding(syn_tokens::specs::Punct::is_punct_character))]
fn write_unnamed(out: &mut Writer, input: &ParseBuffer<'_>) -> Result<(), AllocError>
    requires { sees (at_unnamed Before_less) input.now ≡ true }
    ensures { OnOk result (Unnamed out.old input.now out.new) }
{
    let span = input.span();
    out.write_word("_", span)?;
    out.write_punct(':', Spacing::Alone, span)?;
    Ok(())
}
