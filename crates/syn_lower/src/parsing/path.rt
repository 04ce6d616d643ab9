//! Parsers of paths.
ghost use Rattle.std.specs.Prelude.{◌≡◌, IfOk, IsSome, Some, true};
ghost use Rattle.syn_grammar.specs.Rules as rules;
ghost use Rattle.syn_grammar.specs.Table as table;
ghost use Rattle.syn_grammar.specs.Shape.{untagged};
ghost use Rattle.syn_grammar.specs.Grammar.{Left, Node, Nothing, Right, Shaped, Unshown};
ghost use Rattle.syn_grammar.specs.Run.{and_then, wrap};
ghost use Rattle.syn_tokens.specs.Kinds.{lt_syntax, path_sep_syntax};
ghost use Rattle.syn_lower.specs.Parsing.{sees, parse_rule, parse_form, Computes, Parses, Moved, MayBelow, itself, IsSyntax, joined_of};
ghost use Rattle.syn_lower.specs.Paths.{segment_form};
ghost use Rattle.syn_lower.specs.QualifiedPaths.{syntax_of_TypePath};
ghost use Rattle.syn_lower.specs.TypeForms.{after_trait_form, named_word_form, of_qualified, trait_form, word_form};
ghost use Rattle.syn_lower.specs.Types.{syntax_of_Type};

use super::Nested;
use super::arguments::arguments;
use crate::looks::at_named_word;
use crate::{Path, PathArguments, PathSegment, QSelf, Type, TypePath};
use syn_parse::buffer::ParseBuffer;
use syn_parse::read::lists::joined_list;
use syn_parse::read::refusal::Parsed;
use syn_tokens::punctuated::Punctuated;
use syn_tokens::token::{As, Lt, PathSep};

/// A path in module style: `[::]` and words joined by `::`, each an identifier, `self`, `Self`, `super` or `crate`.
#[tactic(auto, using(syn_grammar::proofs::Each::module_path_is))]
pub fn module_path(input: &mut ParseBuffer<'_>) -> Parsed<Path>
    ensures parses { Parses IsSyntax itself rules.module_path input.old result input.new }
{
    Ok(Path {
        leading_colon: input.read()?,
        segments: module_words(input)?,
    })
}

#[tactic(auto, using(crate::proofs::Lists::module_words_joined))]
fn module_words(input: &mut ParseBuffer<'_>) -> Parsed<Punctuated<PathSegment, PathSep>>
    ensures reads { Computes IsSyntax (λ l. joined_of itself path_sep_syntax l.pairs l.last) (parse_rule rules.module_words input.old) result input.new }
    ensures moved { Moved input.old result input.new }
{
    joined_list::<PathSep, _, _>(input, |next| module_word(next))
}

/// An identifier, `self`, `Self`, `super` or `crate`.
fn module_word(input: &mut ParseBuffer<'_>) -> Parsed<PathSegment>
    ensures reads { Computes IsSyntax itself (parse_form segment_form input.old) result input.new }
    ensures moved { Moved input.old result input.new }
{
    Ok(PathSegment {
        ident: input.read_path_word()?,
        arguments: PathArguments::None,
    })
}

/// A path in a type: `[::]` and words with their arguments, joined by `::`.
#[tactic(auto, using(syn_grammar::proofs::Each::type_path_is))]
pub(crate) fn type_path<N: Nested>(nested: &N, input: &mut ParseBuffer<'_>) -> Parsed<Path>
    requires { MayBelow N.may nested.now input.old }
    ensures parses { Parses IsSyntax itself rules.type_path input.old result input.new }
{
    Ok(Path {
        leading_colon: input.read()?,
        segments: words(nested, input)?,
    })
}

#[tactic(auto, using(crate::proofs::Lists::type_words_joined))]
fn words<N: Nested>(
    nested: &N,
    input: &mut ParseBuffer<'_>,
) -> Parsed<Punctuated<PathSegment, PathSep>>
    requires { MayBelow N.may nested.now input.old }
    ensures reads { Computes IsSyntax (λ l. joined_of itself path_sep_syntax l.pairs l.last) (parse_rule rules.type_words input.old) result input.new }
    ensures ends { IfOk result (λ l. IsSome l.last) }
    ensures moved { Moved input.old result input.new }
{
    joined_list::<PathSep, _, _>(input, |next| word(nested, next))
}

/// A word of a path in a type: an identifier or `Self`, with its arguments where they are next; or `self`, `super` or `crate`.
#[tactic(auto, using(crate::proofs::PathWords::other_word))]
fn word<N: Nested>(nested: &N, input: &mut ParseBuffer<'_>) -> Parsed<PathSegment>
    requires { MayBelow N.may nested.now input.old }
    ensures reads { Computes IsSyntax itself (parse_form word_form input.old) result input.new }
    ensures moved { Moved input.old result input.new }
{
    if at_named_word(input) {
        return named_word(nested, input);
    }
    Ok(PathSegment {
        ident: input.read_path_word()?,
        arguments: PathArguments::None,
    })
}

/// An identifier or `Self`, with its arguments if they are next. (It is called only where one of these is next.)
#[tactic(auto, using(crate::proofs::PathWords::named_word))]
fn named_word<N: Nested>(nested: &N, input: &mut ParseBuffer<'_>) -> Parsed<PathSegment>
    requires may { MayBelow N.may nested.now input.old }
    requires named { sees table.at_named_word input.old ≡ true }
    ensures reads { Computes IsSyntax itself (wrap (Shaped untagged) (parse_form named_word_form input.old)) result input.new }
    ensures moved { Moved input.old result input.new }
{
    Ok(PathSegment {
        ident: input.read_path_word()?,
        arguments: arguments(nested, input)?,
    })
}

/// A path as a type: a qualified path if `<` is next, or a path.
#[tactic(auto, using(syn_grammar::proofs::Each::path_as_type_is))]
pub(crate) fn path_as_type<N: Nested>(nested: &N, input: &mut ParseBuffer<'_>) -> Parsed<TypePath>
    requires { MayBelow N.may nested.now input.old }
    ensures parses { Parses IsSyntax syntax_of_TypePath rules.path_as_type input.old result input.new }
{
    if input.peek::<Lt>() {
        return qualified_path(nested, input);
    }
    Ok(TypePath {
        qself: None,
        path: type_path(nested, input)?,
    })
}

/// A type in `< >`, perhaps followed by `as` and a path; `::` and words.
#[tactic(auto, using(syn_grammar::proofs::Each::qualified_path_is))]
fn qualified_path<N: Nested>(nested: &N, input: &mut ParseBuffer<'_>) -> Parsed<TypePath>
    requires { MayBelow N.may nested.now input.old }
    ensures reads { Computes IsSyntax syntax_of_TypePath (wrap Node (wrap Left (parse_rule rules.qualified_path input.old))) result input.new }
    ensures moved { Moved input.old result input.new }
{
    let lt_token = input.read()?;
    let ty = Box::new(input.alloc(), nested.ty(input)?)?;
    if input.peek::<As>() {
        qualified_by_trait(lt_token, ty, nested, input)
    } else {
        qualified_alone(lt_token, ty, nested, input)
    }
}

/// What follows the type of a qualified path without a trait: `>`, `::` and words.
fn qualified_alone<N: Nested>(
    lt_token: Lt,
    ty: Box<Type>,
    nested: &N,
    input: &mut ParseBuffer<'_>,
) -> Parsed<TypePath>
    requires { MayBelow N.may nested.now input.old }
    ensures reads { Computes IsSyntax syntax_of_TypePath (of_qualified (lt_syntax lt_token) (syntax_of_Type ty.value) (and_then (Some (Right (Unshown Nothing), input.old)) (parse_form after_trait_form))) result input.new }
    ensures moved { Moved input.old result input.new }
{
    let qself = QSelf {
        lt_token,
        ty,
        position: 0,
        as_token: None,
        gt_token: input.read()?,
    };
    Ok(TypePath {
        qself: Some(qself),
        path: Path {
            leading_colon: Some(input.read()?),
            segments: words(nested, input)?,
        },
    })
}

/// What follows the type of a qualified path with a trait: `as`, the trait's path, `>`, `::` and words.
#[tactic(auto, using(syn_grammar::proofs::Each::type_path_is))]
fn qualified_by_trait<N: Nested>(
    lt_token: Lt,
    ty: Box<Type>,
    nested: &N,
    input: &mut ParseBuffer<'_>,
) -> Parsed<TypePath>
    requires { MayBelow N.may nested.now input.old }
    ensures reads { Computes IsSyntax syntax_of_TypePath (of_qualified (lt_syntax lt_token) (syntax_of_Type ty.value) (and_then (wrap Left (parse_form trait_form input.old)) (parse_form after_trait_form))) result input.new }
    ensures moved { Moved input.old result input.new }
{
    let as_token = input.read()?;
    let leading_colon = input.read()?;
    let mut segments = words(nested, input)?;
    let qself = QSelf {
        lt_token,
        ty,
        position: segments.len(),
        as_token: Some(as_token),
        gt_token: input.read()?,
    };
    segments.push_punct(input.read()?)?;
    segments.append(words(nested, input)?)?;
    Ok(TypePath {
        qself: Some(qself),
        path: Path {
            leading_colon,
            segments,
        },
    })
}
