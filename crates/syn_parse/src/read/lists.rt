//! The parsers of lists with separators, as rules of the grammar.
ghost use Rattle.std.specs.Prelude.{◌≡◌, Bool, IfOk, IsSome};
ghost use Rattle.syn_grammar.specs.Rules.{Rule};
ghost use Rattle.syn_grammar.specs.Grammar.{Syntax};
ghost use Rattle.syn_grammar.specs.Take.{left};
ghost use Rattle.syn_grammar.specs.Run.{parse_rule, rows};
ghost use Rattle.syn_grammar.specs.Promises.{Computes, Moved, Kept};
ghost use Rattle.syn_parse.specs.Form.{Form, parse};
ghost use Rattle.syn_parse.specs.Refusals.{IsSyntax};
ghost use Rattle.syn_tokens.specs.Listing.{list_of, joined_of};
ghost use Rattle.syn_tokens.specs.Ordered.{member_of, ordered_of};
ghost use Rattle.syn_parse.specs.Listing.{Callable, Answers, IsList, IsJoined, IsRowOf};

use crate::buffer::ParseBuffer;
use crate::buffer::call::Answer;
use crate::read::refusal::{Parsed, Refusal};
use crate::read::{Peek, Read};
use syn_tokens::punctuated::Punctuated;

/// Elements with separators between them, up to an `S`, which is not consumed. The trailing separator is optional.
///
/// It parses a rule that is such a list (`reads`), and a row of members of two forms, which are printed in another order
/// (`row`).
pub fn punctuated_list<
    S: Peek,
    P: Peek + Read + Drop,
    R: Answer<Refusal>,
    F: Fn(&mut ParseBuffer<'_>) -> R,
>(input: &mut ParseBuffer<'_>, element: F) -> Parsed<Punctuated<R::Node, P>>
where
    R::Node: Drop,
    requires { Callable (left input.old) R.answers (F.pre element) (F.post element) }
    ensures reads { (k : Rule) (e : Form) (v : R.Node → Syntax) → IsList k e S.look P.look P.form → Answers IsSyntax e v R.answers (F.post element)
        → Computes IsSyntax (λ l. list_of v P.syntax l.pairs l.last) (parse_rule k input.old) result input.new }
    ensures row { (e : Form) (first : Syntax → Bool) (v : R.Node → Syntax) → IsRowOf e S.look P.look P.form → Answers IsSyntax e (λ x. member_of first (v x)) R.answers (F.post element)
        → Computes IsSyntax (λ l. ordered_of first (list_of v P.syntax l.pairs l.last)) (rows (parse e) input.old) result input.new }
    ensures moved { Kept input.old result input.new }
{
    let mut list = Punctuated::new(input.alloc());
    'elements: while !input.peek::<S>() {
        let value = element(input).answer()?;
        if !input.peek::<P>() {
            list.push_value(value)?;
            return Ok(list);
        }
        let separator = input.read()?;
        list.push_pair(value, separator)?;
    }
    Ok(list)
}

/// At least one element, and another one as long as a separator is next.
pub fn joined_list<P: Peek + Read + Drop, R: Answer<Refusal>, F: Fn(&mut ParseBuffer<'_>) -> R>(
    input: &mut ParseBuffer<'_>,
    element: F,
) -> Parsed<Punctuated<R::Node, P>>
where
    R::Node: Drop,
    requires { Callable (left input.old) R.answers (F.pre element) (F.post element) }
    ensures reads { (k : Rule) (e : Form) (v : R.Node → Syntax) → IsJoined k e P.look P.form → Answers IsSyntax e v R.answers (F.post element)
        → Computes IsSyntax (λ l. joined_of v P.syntax l.pairs l.last) (parse_rule k input.old) result input.new }
    ensures ends { IfOk result (λ l. IsSome l.last) }
    ensures moved { Moved input.old result input.new }
{
    let mut list = Punctuated::new(input.alloc());
    'elements: loop {
        let value = element(input).answer()?;
        if !input.peek::<P>() {
            list.push_value(value)?;
            return Ok(list);
        }
        let separator = input.read()?;
        list.push_pair(value, separator)?;
    }
}
