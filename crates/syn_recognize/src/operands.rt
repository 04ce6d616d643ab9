//! Rules specialised to the next token: forms without the alternatives that it rules out.
ghost use Rattle.std.specs.Prelude.{◌≡◌};
ghost use Rattle.syn_grammar.specs.Rules.{attributes, expression_words, generic_argument, member, meta, module_path, postfixes, statement_rest, statements, more_type_words, type, type_arguments, type_path, type_words, unary, unary_head, visibility};
ghost use Rattle.syn_grammar.specs.Table.{table};
ghost use Rattle.syn_parse.specs.declared.buffer.first.First.TheVariants as first;
ghost use Rattle.syn_recognize.specs.Forms.{grammar_of};
ghost use Rattle.syn_recognize.specs.Ladder.{loud};
ghost use Rattle.syn_recognize.specs.Names.{rule_of};
ghost use Rattle.syn_recognize.specs.Opens.{Opens};

use crate::form::Form;
use crate::look::{Look, is_any_group, is_group, is_keyword, is_mark};
use crate::plan::Planned;
use crate::rules::{Part, Rule, form_of, form_of_part};
use crate::shape::Shape;
use crate::token::Token;
use crate::words::Mark;
use syn_parse::buffer::first::First;
use syn_tokens::delimiter::Delimiter;

/// An operand that begins with an identifier that is no keyword.
static NAME: Form = Form::Then(
    &Form::When(
        Look::Macro,
        &Form::Rule(Rule::MACRO_INVOCATION),
        &Form::Then(
            &Form::Rule(Rule::EXPRESSION_WORDS),
            &Form::When(
                Look::Group(Delimiter::Brace),
                &Form::Shaped(
                    Shape::Fields,
                    &Form::Inside(Delimiter::Brace, &Form::Rule(Rule::LITERAL_FIELDS)),
                ),
                &Form::Empty,
            ),
        ),
    ),
    &Form::Rule(Rule::POSTFIXES),
);

/// An operand in a head that begins with an identifier that is no keyword.
static HEAD_NAME: Form = Form::Then(
    &Form::When(
        Look::Macro,
        &Form::Rule(Rule::MACRO_INVOCATION),
        &Form::Rule(Rule::EXPRESSION_WORDS),
    ),
    &Form::Rule(Rule::POSTFIXES),
);

/// An operand in a head that begins with a keyword.
static HEAD_KEYWORD: Form = Form::Then(
    &Form::Rule(Rule::PRIMARY_HEAD),
    &Form::Rule(Rule::POSTFIXES),
);

/// An operand in a head that is a literal.
static HEAD_LITERAL: Form = Form::Then(
    &Form::When(
        Look::AnyLiteral,
        &Form::Token(Token::Literal),
        &Form::Rule(Rule::EXPRESSION_WORDS),
    ),
    &Form::Rule(Rule::POSTFIXES),
);

/// An operand that begins with a keyword.
static KEYWORD: Form = Form::Then(&Form::Rule(Rule::PRIMARY), &Form::Rule(Rule::POSTFIXES));

/// An operand that is a literal.
static LITERAL: Form = Form::Then(
    &Form::When(
        Look::AnyLiteral,
        &Form::Token(Token::Literal),
        &Form::Then(
            &Form::Rule(Rule::EXPRESSION_WORDS),
            &Form::When(
                Look::Group(Delimiter::Brace),
                &Form::Shaped(
                    Shape::Fields,
                    &Form::Inside(Delimiter::Brace, &Form::Rule(Rule::LITERAL_FIELDS)),
                ),
                &Form::Empty,
            ),
        ),
    ),
    &Form::Rule(Rule::POSTFIXES),
);

/// An operand that begins with parentheses.
static PARENTHESES: Form = Form::Then(
    &Form::Inside(Delimiter::Paren, &Form::Rule(Rule::EXPRESSIONS)),
    &Form::Rule(Rule::POSTFIXES),
);

/// An operand that begins with brackets.
static BRACKETS: Form = Form::Then(
    &Form::Inside(Delimiter::Bracket, &Form::Rule(Rule::ARRAY_CONTENT)),
    &Form::Rule(Rule::POSTFIXES),
);

/// The segments of a type's path that begins with an identifier that is no keyword.
static WORDS: Form = Form::Then(
    &Form::Then(
        &Form::Token(Token::NameOrSelfType),
        &Form::Shaped(
            Shape::Untagged,
            &Form::When(
                Look::Arguments,
                &Form::Rule(Rule::TYPE_ARGUMENTS),
                &Form::Empty,
            ),
        ),
    ),
    &Form::Part(Part::TYPE_WORDS_2),
);

/// A type in parentheses.
static TUPLE: Form = Form::Inside(Delimiter::Paren, &Form::Rule(Rule::TYPES));

/// A generic argument that begins with an identifier that is no keyword.
static ARGUMENT: Form = Form::When(
    Look::Association,
    &Form::Then(
        &Form::Token(Token::Name),
        &Form::Then(&Form::Mark(Mark::Eq), &Form::Rule(Rule::TYPE)),
    ),
    &Form::Rule(Rule::TYPE),
);

/// The meta of an attribute that begins with an identifier that is no keyword.
static META: Form = Form::Then(
    &Form::Rule(Rule::MODULE_WORDS),
    &Form::Rule(Rule::META_VALUE),
);

/// The segments of an expression's path that begins with an identifier that is no keyword.
static EXPRESSION_WORDS: Form = Form::Then(
    &Form::Then(
        &Form::Token(Token::NameOrSelfType),
        &Form::Shaped(
            Shape::Untagged,
            &Form::When(
                Look::Turbofish,
                &Form::Rule(Rule::TYPE_ARGUMENTS),
                &Form::Empty,
            ),
        ),
    ),
    &Form::Part(Part::EXPRESSION_WORDS_2),
);

/// A statement that begins with such an identifier, after its attributes, and those that follow: a macro in braces, or an expression.
static STATEMENT: Form = Form::When(
    Look::BraceMacro,
    &Form::Then(
        &Form::Rule(Rule::MACRO_INVOCATION),
        &Form::Rule(Rule::AFTER_BLOCK),
    ),
    &Form::Then(
        &Form::Rule(Rule::WHOLE_EXPRESSION),
        &Form::Rule(Rule::AFTER_EXPRESSION),
    ),
);

/// Statements, where the first begins with a word and has no attribute.
static LISTED: Form = Form::When(
    Look::Item,
    &Form::Planned(Planned::Statements),
    &Form::Rule(Rule::STATEMENT_REST),
);

static EMPTY: Form = Form::Empty;

/// The form of this rule, specialised to this next token.
#[tactic(auto, using(crate::proofs::Opened::opens_rule), unfolding(crate::specs::Names::rule_of, crate::specs::Parts::part_form))]
#[inline(never)]
pub(crate) fn opened(rule: Rule, next: First) -> &'static Form
    ensures { Opens next (grammar_of result.now) (rule_of rule) }
{
    match rule {
        Rule::UNARY => operand(next),
        Rule::UNARY_HEAD => head_operand(next),
        Rule::POSTFIXES => postfix(next),
        Rule::TYPE => type_by(next),
        Rule::TYPE_PATH => path_by(next),
        Rule::TYPE_WORDS => words_by(next),
        Rule::MORE_TYPE_WORDS => more_words_by(next),
        Rule::TYPE_ARGUMENTS => arguments_by(next),
        Rule::GENERIC_ARGUMENT => argument_by(next),
        Rule::ATTRIBUTES => attributes_by(next),
        Rule::META => meta_by(next),
        Rule::MODULE_PATH => module_path_by(next),
        Rule::VISIBILITY => visibility_by(next),
        Rule::EXPRESSION_WORDS => expression_words_by(next),
        Rule::MEMBER => member_by(next),
        Rule::STATEMENTS => statements_by(next),
        Rule::STATEMENT_REST => statement_by(next),
        _ => form_of(rule),
    }
}

/// The form of a unary level, specialised to this next token.
#[tactic(auto, using(crate::proofs::Opened::opens_rule), unfolding(crate::specs::Names::rule_of))]
#[inline(never)]
pub(crate) fn operand(next: First) -> &'static Form
    ensures { Opens next (grammar_of result.now) unary }
{
    match next {
        First::Name => &NAME,
        First::Keyword => &KEYWORD,
        First::Literal => &LITERAL,
        First::Group(delimiter) => group_operand(delimiter),
        _ => form_of(Rule::UNARY),
    }
}

/// The form of a unary level, specialised to this next group.
#[tactic(auto, using(crate::proofs::Opened::opens_rule), unfolding(crate::specs::Names::rule_of))]
fn group_operand(delimiter: Delimiter) -> &'static Form
    ensures { Opens (first.Group delimiter) (grammar_of result.now) unary }
{
    match delimiter {
        Delimiter::Paren => &PARENTHESES,
        Delimiter::Bracket => &BRACKETS,
        Delimiter::Brace => form_of(Rule::UNARY),
        Delimiter::None => form_of(Rule::UNARY),
    }
}

/// The form of a unary level in a head, specialised to this next token.
#[tactic(auto, using(crate::proofs::Opened::opens_rule), unfolding(crate::specs::Names::rule_of))]
#[inline(never)]
pub(crate) fn head_operand(next: First) -> &'static Form
    ensures { Opens next (grammar_of result.now) unary_head }
{
    match next {
        First::Name => &HEAD_NAME,
        First::Keyword => &HEAD_KEYWORD,
        First::Literal => &HEAD_LITERAL,
        First::Group(delimiter) => group_head_operand(delimiter),
        _ => form_of(Rule::UNARY_HEAD),
    }
}

/// The form of a unary level in a head, specialised to this next group.
#[tactic(auto, using(crate::proofs::Opened::opens_rule), unfolding(crate::specs::Names::rule_of))]
fn group_head_operand(delimiter: Delimiter) -> &'static Form
    ensures { Opens (first.Group delimiter) (grammar_of result.now) unary_head }
{
    match delimiter {
        Delimiter::Paren => &PARENTHESES,
        Delimiter::Bracket => &BRACKETS,
        Delimiter::Brace => form_of(Rule::UNARY_HEAD),
        Delimiter::None => form_of(Rule::UNARY_HEAD),
    }
}

/// The form of postfixes, specialised to this next token.
#[tactic(auto, using(crate::proofs::Opened::opens_rule, crate::proofs::Opened::opens_silent), unfolding(crate::specs::Names::rule_of))]
fn postfix(next: First) -> &'static Form
    ensures { Opens next (grammar_of result.now) postfixes }
{
    if !may_follow(next) {
        return &EMPTY;
    }
    match next {
        First::Mark(character) => postfix_by_mark(character),
        _ => form_of(Rule::POSTFIXES),
    }
}

/// The form of postfixes, specialised to this next character.
#[tactic(auto, using(crate::proofs::Opened::opens_rule, crate::proofs::Beginnings::dot_postfix), unfolding(crate::specs::Names::rule_of, crate::specs::Parts::part_form))]
fn postfix_by_mark(character: char) -> &'static Form
    ensures { Opens (first.Mark character) (grammar_of result.now) postfixes }
{
    match character {
        '.' => form_of_part(Part::POSTFIXES_1),
        _ => form_of(Rule::POSTFIXES),
    }
}

/// The form of a type, specialised to this next token.
#[tactic(auto, using(crate::proofs::Opened::opens_rule, crate::proofs::Beginnings::type_by_keyword), unfolding(crate::specs::Names::rule_of, crate::specs::Parts::part_form))]
fn type_by(next: First) -> &'static Form
    ensures { Opens next (grammar_of result.now) type }
{
    match next {
        First::Name => &WORDS,
        First::Keyword => form_of(Rule::TYPE_WORDS),
        First::Mark(character) => type_by_mark(character),
        First::Group(delimiter) => type_by_group(delimiter),
        _ => form_of(Rule::TYPE),
    }
}

/// The form of a type, specialised to this next character.
#[tactic(auto, using(crate::proofs::Opened::opens_rule, crate::proofs::Beginnings::colon_type, crate::proofs::Beginnings::less_type), unfolding(crate::specs::Names::rule_of))]
fn type_by_mark(character: char) -> &'static Form
    ensures { Opens (first.Mark character) (grammar_of result.now) type }
{
    match character {
        ':' => form_of(Rule::TYPE_PATH),
        '<' => form_of(Rule::PATH_AS_TYPE),
        _ => form_of(Rule::TYPE),
    }
}

/// The form of a type, specialised to this next group.
#[tactic(auto, using(crate::proofs::Opened::opens_rule), unfolding(crate::specs::Names::rule_of))]
fn type_by_group(delimiter: Delimiter) -> &'static Form
    ensures { Opens (first.Group delimiter) (grammar_of result.now) type }
{
    match delimiter {
        Delimiter::Paren => &TUPLE,
        Delimiter::Bracket => form_of(Rule::TYPE),
        Delimiter::Brace => form_of(Rule::TYPE),
        Delimiter::None => form_of(Rule::TYPE),
    }
}

/// The form of a path in a type, specialised to this next token.
#[tactic(auto, using(crate::proofs::Opened::opens_rule, crate::proofs::Beginnings::path_by_keyword), unfolding(crate::specs::Names::rule_of, crate::specs::Parts::part_form))]
fn path_by(next: First) -> &'static Form
    ensures { Opens next (grammar_of result.now) type_path }
{
    match next {
        First::Name => &WORDS,
        First::Keyword => form_of(Rule::TYPE_WORDS),
        _ => form_of(Rule::TYPE_PATH),
    }
}

/// The form of the segments of a type's path, specialised to this next token.
#[tactic(auto, using(crate::proofs::Opened::opens_rule), unfolding(crate::specs::Names::rule_of, crate::specs::Parts::part_form))]
fn words_by(next: First) -> &'static Form
    ensures { Opens next (grammar_of result.now) type_words }
{
    match next {
        First::Name => &WORDS,
        _ => form_of(Rule::TYPE_WORDS),
    }
}

/// The form of the segments of a type's path after the first, specialised to this next token.
#[tactic(auto, using(crate::proofs::Opened::opens_rule), unfolding(crate::specs::Names::rule_of, crate::specs::Parts::part_form))]
fn more_words_by(next: First) -> &'static Form
    ensures { Opens next (grammar_of result.now) more_type_words }
{
    match next {
        First::Name => &WORDS,
        _ => form_of(Rule::MORE_TYPE_WORDS),
    }
}

/// The form of the arguments of a segment in a type's path, specialised to this next token.
#[tactic(auto, using(crate::proofs::Opened::opens_rule), unfolding(crate::specs::Names::rule_of))]
fn arguments_by(next: First) -> &'static Form
    ensures { Opens next (grammar_of result.now) type_arguments }
{
    match next {
        First::Mark(character) => arguments_by_mark(character),
        _ => form_of(Rule::TYPE_ARGUMENTS),
    }
}

/// The form of generic arguments, specialised to this next character.
#[tactic(auto, using(crate::proofs::Opened::opens_rule, crate::proofs::Beginnings::less_arguments), unfolding(crate::specs::Names::rule_of))]
fn arguments_by_mark(character: char) -> &'static Form
    ensures { Opens (first.Mark character) (grammar_of result.now) type_arguments }
{
    match character {
        '<' => form_of(Rule::GENERIC_ARGUMENTS),
        _ => form_of(Rule::TYPE_ARGUMENTS),
    }
}

/// The form of a generic argument, specialised to this next token.
#[tactic(auto, using(crate::proofs::Opened::opens_rule), unfolding(crate::specs::Names::rule_of))]
fn argument_by(next: First) -> &'static Form
    ensures { Opens next (grammar_of result.now) generic_argument }
{
    match next {
        First::Name => &ARGUMENT,
        _ => form_of(Rule::GENERIC_ARGUMENT),
    }
}

/// The form of attributes, specialised to this next token.
#[tactic(auto, using(crate::proofs::Opened::opens_rule, crate::proofs::Opened::opens_silent), unfolding(crate::specs::Names::rule_of))]
fn attributes_by(next: First) -> &'static Form
    ensures { Opens next (grammar_of result.now) attributes }
{
    if may_be_attribute(next) {
        form_of(Rule::ATTRIBUTES)
    } else {
        &EMPTY
    }
}

/// The form of the meta of an attribute, specialised to this next token.
#[tactic(auto, using(crate::proofs::Opened::opens_rule), unfolding(crate::specs::Names::rule_of))]
fn meta_by(next: First) -> &'static Form
    ensures { Opens next (grammar_of result.now) meta }
{
    match next {
        First::Name => &META,
        _ => form_of(Rule::META),
    }
}

/// The form of a path in module style, specialised to this next token.
#[tactic(auto, using(crate::proofs::Opened::opens_rule, crate::proofs::Beginnings::module_path_by_name, crate::proofs::Beginnings::module_path_by_keyword), unfolding(crate::specs::Names::rule_of))]
fn module_path_by(next: First) -> &'static Form
    ensures { Opens next (grammar_of result.now) module_path }
{
    match next {
        First::Name => form_of(Rule::MODULE_WORDS),
        First::Keyword => form_of(Rule::MODULE_WORDS),
        _ => form_of(Rule::MODULE_PATH),
    }
}

/// The form of a visibility, specialised to this next token.
#[tactic(auto, using(crate::proofs::Opened::opens_rule, crate::proofs::Opened::opens_silent), unfolding(crate::specs::Names::rule_of))]
fn visibility_by(next: First) -> &'static Form
    ensures { Opens next (grammar_of result.now) visibility }
{
    if may_be_visibility(next) {
        form_of(Rule::VISIBILITY)
    } else {
        &EMPTY
    }
}

/// Whether the next token may begin a postfix.
fn may_follow(next: First) -> bool
    ensures { result ≡ loud (table postfixes) next }
{
    is_group(Delimiter::Paren, next)
        || is_group(Delimiter::Bracket, next)
        || is_mark('?', next)
        || is_mark('.', next)
}

/// Whether the next token may begin an attribute.
fn may_be_attribute(next: First) -> bool
    ensures { result ≡ loud (table attributes) next }
{
    is_mark('#', next)
}

/// Whether the next token may begin a visibility that is written.
fn may_be_visibility(next: First) -> bool
    ensures { result ≡ loud (table visibility) next }
{
    is_keyword(next) || is_any_group(next)
}

/// The form of the segments of an expression's path, specialised to this next token.
#[tactic(auto, using(crate::proofs::Opened::opens_rule), unfolding(crate::specs::Names::rule_of, crate::specs::Parts::part_form))]
fn expression_words_by(next: First) -> &'static Form
    ensures { Opens next (grammar_of result.now) expression_words }
{
    match next {
        First::Name => &EXPRESSION_WORDS,
        _ => form_of(Rule::EXPRESSION_WORDS),
    }
}

/// The form of a member, specialised to this next token.
#[tactic(auto, using(crate::proofs::Opened::opens_rule, crate::proofs::Beginnings::member_by_name), unfolding(crate::specs::Names::rule_of, crate::specs::Parts::part_form))]
fn member_by(next: First) -> &'static Form
    ensures { Opens next (grammar_of result.now) member }
{
    match next {
        First::Name => form_of_part(Part::MEMBER_2),
        _ => form_of(Rule::MEMBER),
    }
}

/// The form of statements, specialised to this next token.
#[tactic(auto, using(crate::proofs::Opened::opens_rule), unfolding(crate::specs::Names::rule_of))]
fn statements_by(next: First) -> &'static Form
    ensures { Opens next (grammar_of result.now) statements }
{
    match next {
        First::Name => &LISTED,
        First::Keyword => &LISTED,
        _ => form_of(Rule::STATEMENTS),
    }
}

/// The form of a statement after its attributes, with those that follow, specialised to this next token.
#[tactic(auto, using(crate::proofs::Opened::opens_rule), unfolding(crate::specs::Names::rule_of))]
fn statement_by(next: First) -> &'static Form
    ensures { Opens next (grammar_of result.now) statement_rest }
{
    match next {
        First::Name => &STATEMENT,
        _ => form_of(Rule::STATEMENT_REST),
    }
}
