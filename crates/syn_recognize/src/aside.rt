//! Reading without writing in place: the output is dropped, or written aside.
ghost use Rattle.std.specs.Prelude.{◌≡◌, true, false, IfOk, OnErr, OnOk};
ghost use Rattle.syn_grammar.specs.Grammar.{vanishing, captured};
ghost use Rattle.syn_recognize.specs.Forms.{grammar_of};
ghost use Rattle.syn_recognize.specs.Names.{look_of};
ghost use Rattle.syn_recognize.specs.Copies.{copy_form, forgetting, capturing, joining};
ghost use Rattle.syn_recognize.specs.Steps.{Steps, Runs};
ghost use Rattle.syn_recognize.specs.Stops.{IsFault};
ghost use Rattle.syn_recognize.specs.Written.{closed, stream_of};

use crate::form::Form;
use crate::look::{Look, holds};
use crate::step::Step;
use crate::stop::{Stepped, Stop, unexpected};
use crate::writer::Writer;
use syn_parse::buffer::ParseBuffer;
use syn_tokens::stream::TokenStream;

/// Reads a part that is never printed, if the lookahead holds.
#[tactic(auto, using(crate::proofs::Todo::push, crate::proofs::WrittenAside::hidden_absent, crate::proofs::WrittenAside::hidden_is))]
pub(crate) fn read_hidden<'a>(
    look: &Look,
    form: &'static Form,
    steps: &mut Vec<Step<'a>>,
    out: &mut Writer,
    input: &ParseBuffer<'a>,
) -> Stepped<()>
    ensures { Steps IsFault steps.old.items (copy_form (vanishing true (look_of look.now) (grammar_of form.now)) out.old input.now) result steps.new.items out.new input.now }
{
    if !holds(look, input) {
        return Ok(());
    }
    let before = out.drop_aside()?;
    steps.push(Step::Forget(before))?;
    steps.push(Step::Form(form))?;
    Ok(())
}

/// Restores the output that was set aside.
pub(crate) fn forget(before: Box<Writer>, out: &mut Writer, input: &ParseBuffer<'_>) -> Stepped<()>
    ensures { Runs IsFault (forgetting before.value out.old input.now) result out.new input.now }
{
    out.restore(before);
    Ok(())
}

/// Reads a part whose tokens are copied unchanged.
#[tactic(auto, using(crate::proofs::Todo::push, crate::proofs::WrittenAside::captured_is))]
pub(crate) fn read_captured<'a>(
    form: &'static Form,
    steps: &mut Vec<Step<'a>>,
    out: &mut Writer,
    input: &ParseBuffer<'a>,
) -> Stepped<()>
    ensures { Steps IsFault steps.old.items (copy_form (captured (grammar_of form.now)) out.old input.now) result steps.new.items out.new input.now }
{
    let before = out.drop_aside()?;
    steps.push(Step::Capture(before, input.fork()))?;
    steps.push(Step::Form(form))?;
    Ok(())
}

/// Restores the output that was set aside, and copies the tokens from `begin` to the cursor unchanged. Copies nothing inside a part whose
/// output is dropped.
#[tactic(auto, using(crate::proofs::Writes::adds_nothing))]
pub(crate) fn capture<'a>(
    before: Box<Writer>,
    begin: &ParseBuffer<'a>,
    out: &mut Writer,
    input: &ParseBuffer<'a>,
) -> Stepped<()>
    ensures { Runs IsFault (capturing before.value begin.now out.old input.now) result out.new input.now }
{
    out.restore(before);
    if out.is_dropping() {
        return Ok(());
    }
    match begin.between(input) {
        Ok(tokens) => Ok(out.append(&tokens)?),
        Err(error) => Err(Stop::Memory(error.into_alloc_error())),
    }
}

/// Restores the output that was set aside, and appends what was written aside. Stops where memory is refused, or where a group of it is
/// still open: then nothing is read.
#[tactic(auto, using(crate::proofs::WrittenAside::joined, crate::proofs::WrittenAside::not_joined))]
pub(crate) fn join(
    mut before: Box<Writer>,
    out: &mut Writer,
    input: &ParseBuffer<'_>,
) -> Stepped<()>
    ensures { Runs IsFault (joining before.value out.old input.now) result out.new input.now }
{
    out.exchange(&mut before);
    let aside = Box::into_inner(before);
    if !aside.is_closed() {
        return Err(unexpected(input, "unexpected token"));
    }
    out.append_written(aside)?;
    Ok(())
}

/// The tokens of an output. Stops where a group is still open.
pub(crate) fn written(out: Writer, input: &ParseBuffer<'_>) -> Stepped<TokenStream>
    ensures tokens { IfOk result (λ tokens. tokens ≡ stream_of out) }
    ensures closed { OnOk result (closed out ≡ true) }
    ensures left_open { OnErr result (closed out ≡ false) }
{
    match out.finish() {
        Some(tokens) => Ok(tokens),
        None => Err(unexpected(input, "unexpected token")),
    }
}
