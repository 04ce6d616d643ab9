//! Lists in `< >`, of members that are printed first, and others. Shown, the members keep their order. Printed, the other members are written
//! aside until the list ends, so that a member that is printed first can follow one of them.
ghost use Rattle.std.specs.Prelude.{◌≡◌, true, false};
ghost use Rattle.syn_grammar.specs.Grammar.{ordered, at_row_end};
ghost use Rattle.syn_grammar.specs.Take.{sees};
ghost use Rattle.syn_recognize.specs.Forms.{grammar_of};
ghost use Rattle.syn_recognize.specs.Ordered.{first_form, other_form, Settles};
ghost use Rattle.syn_recognize.specs.Copies.{next, copy_form, copy_row, after_member, copy_others, after_other, after_late};
ghost use Rattle.syn_recognize.specs.Steps.{Steps};
ghost use Rattle.syn_recognize.specs.Stops.{IsFault};

use crate::aside::join;
use crate::form::Form;
use crate::left_out::Place;
use crate::list::{List, at_first, first_of, other_of};
use crate::step::Step;
use crate::stop::Stepped;
use crate::words::{Mark, copy_mark};
use crate::writer::Writer;
use syn_parse::buffer::ParseBuffer;
use syn_tokens::span::Span;
use syn_tokens::token::{Comma, Gt};

static GREATER: Form = Form::MarkAt(Mark::Gt, Place::Following);

/// Reads a list in `< >`.
#[tactic(auto, using(crate::proofs::Todo::push, crate::proofs::Copied::ordered_is), unfolding(crate::specs::Copies::copy_form))]
pub(crate) fn read_ordered<'a>(
    list: List,
    steps: &mut Vec<Step<'a>>,
    out: &mut Writer,
    input: &mut ParseBuffer<'a>,
) -> Stepped<()>
    ensures { Steps IsFault steps.old.items (copy_form (ordered (first_form list) (other_form list)) out.old input.old) result steps.new.items out.new input.new }
{
    copy_mark(Mark::Lt, out, input)?;
    steps.push(Step::Form(&GREATER))?;
    steps.push(Step::Row(list))?;
    Ok(())
}

// A WHOLE LIST

/// Reads a list up to `>`, of which no other member was printed yet.
#[tactic(auto, using(crate::proofs::Lists::row_done, crate::proofs::Lists::row_first, crate::proofs::Lists::row_other))]
pub(crate) fn read_row<'a>(
    list: List,
    steps: &mut Vec<Step<'a>>,
    out: &mut Writer,
    input: &ParseBuffer<'a>,
) -> Stepped<()>
    ensures { Steps IsFault steps.old.items (copy_row list out.old input.now) result steps.new.items out.new input.now }
{
    if input.peek::<Gt>() {
        return Ok(());
    }
    if at_first(list, input) {
        return read_member(list, first_of(list), steps, out, input);
    }
    if out.is_printing() {
        return begin_others(list, steps, out, input);
    }
    read_member(list, other_of(list), steps, out, input)
}

/// Reads a member, which is written where it is.
#[tactic(auto, using(crate::proofs::Todo::push))]
fn read_member<'a>(
    list: List,
    form: &'static Form,
    steps: &mut Vec<Step<'a>>,
    _out: &Writer,
    _input: &ParseBuffer<'a>,
) -> Stepped<()>
    ensures { Steps IsFault steps.old.items (next (copy_form (grammar_of form.now) _out.now _input.now) (after_member list)) result steps.new.items _out.now _input.now }
{
    steps.push(Step::RowRest(list))?;
    steps.push(Step::Form(form))?;
    Ok(())
}

/// Reads what follows a member.
#[tactic(auto, using(crate::proofs::Todo::push))]
pub(crate) fn read_row_rest<'a>(
    list: List,
    steps: &mut Vec<Step<'a>>,
    out: &mut Writer,
    input: &mut ParseBuffer<'a>,
) -> Stepped<()>
    ensures { Steps IsFault steps.old.items (after_member list out.old input.old) result steps.new.items out.new input.new }
{
    if input.peek::<Comma>() {
        copy_mark(Mark::Comma, out, input)?;
        steps.push(Step::Row(list))?;
    }
    Ok(())
}

// A PRINTED LIST FROM ITS FIRST OTHER MEMBER ON

/// Reads the first other member aside.
#[tactic(auto, using(crate::proofs::Todo::push, crate::proofs::Lists::row_split))]
fn begin_others<'a>(
    list: List,
    steps: &mut Vec<Step<'a>>,
    out: &mut Writer,
    input: &ParseBuffer<'a>,
) -> Stepped<()>
    requires printing { out.old.printing ≡ true }
    requires member { sees at_row_end input.now ≡ false }
    requires other { Settles list input.now false }
    ensures { Steps IsFault steps.old.items (copy_row list out.old input.now) result steps.new.items out.new input.now }
{
    let before = out.set_aside()?;
    read_other(list, before, steps, out, input)
}

/// Reads what is left of a list.
#[tactic(auto, using(crate::proofs::Lists::others_done, crate::proofs::Lists::others_other, crate::proofs::Lists::others_late))]
pub(crate) fn read_others<'a>(
    list: List,
    before: Box<Writer>,
    steps: &mut Vec<Step<'a>>,
    out: &mut Writer,
    input: &ParseBuffer<'a>,
) -> Stepped<()>
    ensures { Steps IsFault steps.old.items (copy_others list before.value out.old input.now) result steps.new.items out.new input.now }
{
    if input.peek::<Gt>() {
        return join(before, out, input);
    }
    if at_first(list, input) {
        return read_late(list, before, steps, out, input);
    }
    read_other(list, before, steps, out, input)
}

/// Reads another member, and what follows it.
#[tactic(auto, using(crate::proofs::Todo::push))]
fn read_other<'a>(
    list: List,
    before: Box<Writer>,
    steps: &mut Vec<Step<'a>>,
    _out: &Writer,
    _input: &ParseBuffer<'a>,
) -> Stepped<()>
    ensures { Steps IsFault steps.old.items (next (copy_form (other_form list) _out.now _input.now) (after_other list before.value)) result steps.new.items _out.now _input.now }
{
    steps.push(Step::OthersRest(list, before))?;
    steps.push(Step::Form(other_of(list)))?;
    Ok(())
}

/// Reads a member that is printed before the others.
#[tactic(auto, using(crate::proofs::Todo::push))]
fn read_late<'a>(
    list: List,
    mut before: Box<Writer>,
    steps: &mut Vec<Step<'a>>,
    out: &mut Writer,
    _input: &ParseBuffer<'a>,
) -> Stepped<()>
    ensures { Steps IsFault steps.old.items (next (copy_form (first_form list) before.value _input.now) (after_late list out.old)) result steps.new.items out.new _input.now }
{
    out.exchange(&mut before);
    steps.push(Step::LateRest(list, before))?;
    steps.push(Step::Form(first_of(list)))?;
    Ok(())
}

/// Reads what follows such a member, and continues with the others. If no comma does, one is written.
#[tactic(auto, using(crate::proofs::Todo::push, crate::proofs::Lists::comma_written))]
pub(crate) fn read_late_rest<'a>(
    list: List,
    mut others: Box<Writer>,
    steps: &mut Vec<Step<'a>>,
    out: &mut Writer,
    input: &mut ParseBuffer<'a>,
) -> Stepped<()>
    ensures { Steps IsFault steps.old.items (after_late list others.value out.old input.old) result steps.new.items out.new input.new }
{
    if !input.peek::<Comma>() {
        out.write(&Comma::new([Span::call_site()]))?;
        out.exchange(&mut others);
        return join(others, out, input);
    }
    copy_mark(Mark::Comma, out, input)?;
    out.exchange(&mut others);
    steps.push(Step::Others(list, others))?;
    Ok(())
}

/// Reads what follows another member.
#[tactic(auto, using(crate::proofs::Todo::push))]
pub(crate) fn read_others_rest<'a>(
    list: List,
    before: Box<Writer>,
    steps: &mut Vec<Step<'a>>,
    out: &mut Writer,
    input: &mut ParseBuffer<'a>,
) -> Stepped<()>
    ensures { Steps IsFault steps.old.items (after_other list before.value out.old input.old) result steps.new.items out.new input.new }
{
    if !input.peek::<Comma>() {
        return join(before, out, input);
    }
    copy_mark(Mark::Comma, out, input)?;
    steps.push(Step::Others(list, before))?;
    Ok(())
}
