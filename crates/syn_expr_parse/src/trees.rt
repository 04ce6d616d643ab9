//! What parsers make of what they read: the trees of expressions and statements, as their parsers know them.
ghost use Rattle.std.specs.Prelude.{◌≡◌, true};
ghost use Rattle.syn_grammar.specs.Tokens as grammar;
ghost use Rattle.syn_grammar.specs.Tokens.{end};
ghost use Rattle.syn_grammar.specs.Grammar.{Both, Captured, Left, Node, Nothing, Right, Shaped, Such};
ghost use Rattle.syn_grammar.specs.Shape.{Array, Assign, Binary, Block as Blocks, Break as Breaking, Call, Cast, Continue as Continuing, Field, ForLoop, Grouped, If as Choosing, Index, Lit as Literals, Loop as Looping, Macro as Macros, MethodCall, Parens, Path as Paths, Reference, Repeat, Return as Returning, Try, Tuple, Unary, Unsafe as Unsafes, Verbatim, While as Whiles, a_local, an_item, expr as expr_shape, said, untagged};
ghost use Rattle.syn_grammar.specs.Values.{moved as moved_syntax, new, sentence as sentence_syntax, with_attributes as with_attributes_syntax};
ghost use Rattle.syn_grammar.specs.Promises.{OrMemory};
ghost use Rattle.syn_tokens.specs.Kinds.{and_syntax, as_syntax, break_syntax, colon_syntax, comma_syntax, continue_syntax, dot_syntax, dot_dot_syntax, else_syntax, eq_syntax, for_syntax, if_syntax, in_syntax, let_syntax, loop_syntax, mut_syntax, question_syntax, return_syntax, semi_syntax, unsafe_syntax, while_syntax};
ghost use Rattle.syn_tokens.specs.Leaves.{maybe, syntax_of_ident};
ghost use Rattle.syn_tokens.specs.Listing.{list_of};
ghost use Rattle.syn_parse.specs.Refusals.{IsSyntax};
ghost use Rattle.syn_lower.specs.Attributes.{all_attributes_syntax, attributes_syntax};
ghost use Rattle.syn_lower.specs.Parts.{group_syntax};
ghost use Rattle.syn_lower.specs.Types.{syntax_of_Type, syntax_of_lifetime, tuple_elements};
ghost use Rattle.syn_lower.specs.Literals.{syntax_of_Lit};
ghost use Rattle.syn_lower.specs.Members.{syntax_of_Member};
ghost use Rattle.syn_pat.specs.Patterns.{local_pattern, path_of, syntax_of_Pat};
ghost use Rattle.syn_lower.specs.Bodies.{attributes_before_body, body as body_syntax};
ghost use Rattle.syn_expr_parse.specs.Operators.{syntax_of_BinOp, syntax_of_UnOp};
ghost use Rattle.syn_expr_parse.specs.Parts.{array_elements, after_else, block_after_else, diverging, field_member, label_syntax, method_arguments, statements_of, token_of};
ghost use Rattle.syn_expr_parse.specs.Primary.{in_literal};
ghost use Rattle.syn_expr_parse.specs.Spines.{spine_shown};
ghost use Rattle.syn_expr_parse.specs.StructLiterals.{field_of, literal_of_parts, lone_field};
ghost use Rattle.syn_expr_parse.specs.Unary.{own_shown};

use crate::op::{BinOp, UnOp};
use std::alloc::Global;
use syn_lower::{AngleBracketedGenericArguments, Attribute, Lit, Member, Path, QSelf, Type};
use syn_parse::read::refusal::Parsed;
use syn_pat::{Macro, Pat};
use syn_recognize::deferred::DeferredItem;
use syn_tokens::ident::Ident;
use syn_tokens::lifetime::Lifetime;
use syn_tokens::punctuated::Punctuated;
use syn_tokens::token::{
    And, As, Brace, Bracket, Break, Colon, Comma, Continue, Dot, DotDot, Else, Eq, For, Group, If,
    In, Let, Loop, Mut, Paren, Question, Return, Semi, Unsafe, While,
};

/// The trees of expressions, blocks and statements. A function that takes memory is refused only if memory is.
pub trait Trees {
    ghost use Rattle.std.specs.Prelude.{◌≡◌};
    ghost use Rattle.syn_grammar.specs.Grammar.{Syntax};
    ghost use Rattle.syn_grammar.specs.Values.{core};

    /// Expressions.
    type Expr: Drop;

    /// Statements in braces.
    type Block: Drop;

    /// Statements.
    type Stmt: Drop;

    /// `=` and the value of a local.
    type LocalInit: Drop;

    /// Expressions of which a statement is made.
    type Held: Drop;

    /// Fields of struct literals.
    type FieldValue: Drop;

    /// What an expression represents, without its rule's node.
    ghost expr_syntax: { Self.Expr → Syntax };

    ghost block_syntax: { Self.Block → Syntax };

    /// What a statement represents, without its rule's node.
    ghost stmt_syntax: { Self.Stmt → Syntax };

    ghost init_syntax: { Self.LocalInit → Syntax };

    /// What the expression represents of which a statement is made.
    ghost held_syntax: { Self.Held → Syntax };

    ghost field_syntax: { Self.FieldValue → Syntax };

    /// What an expression represents is a value of its own.
    ghost core_is: { (e : Self.Expr) → core (Self.expr_syntax e) ≡ Self.expr_syntax e };

    /// Expressions in brackets.
    fn expr_array(
        bracket_token: Bracket,
        elems: Punctuated<Self::Expr, Comma>,
        alloc: Global,
    ) -> Parsed<Box<Self::Expr>>
        ensures { OrMemory IsSyntax result (λ x. Self.expr_syntax x.value ≡ new Array (group_syntax grammar.Bracket bracket_token (array_elements (list_of (λ e. Node (Self.expr_syntax e)) comma_syntax elems.pairs elems.last)))) };

    /// `=` between two expressions.
    fn expr_assign(
        left: Box<Self::Expr>,
        eq_token: Eq,
        right: Box<Self::Expr>,
        alloc: Global,
    ) -> Parsed<Box<Self::Expr>>
        ensures { OrMemory IsSyntax result (λ x. Self.expr_syntax x.value ≡ new Assign (Both (Self.expr_syntax left.value) (Both (eq_syntax eq_token) (Node (Self.expr_syntax right.value))))) };

    /// An operator between two expressions.
    fn expr_binary(
        left: Box<Self::Expr>,
        op: BinOp,
        right: Box<Self::Expr>,
        alloc: Global,
    ) -> Parsed<Box<Self::Expr>>
        ensures { OrMemory IsSyntax result (λ x. Self.expr_syntax x.value ≡ new Binary (Both (Self.expr_syntax left.value) (Both (syntax_of_BinOp op) (Node (Self.expr_syntax right.value))))) };

    /// A block, perhaps with a label.
    fn expr_block(
        attrs: Vec<Attribute>,
        label: Option<(Lifetime, Colon)>,
        block: Self::Block,
        alloc: Global,
    ) -> Parsed<Box<Self::Expr>>
        ensures { OrMemory IsSyntax result (λ x. Self.expr_syntax x.value ≡ Shaped (expr_shape Blocks) (Both (attributes_before_body attrs.items) (Both (label_syntax label) (body_syntax attrs.items (Self.block_syntax block))))) };

    /// `break`, perhaps with a lifetime.
    fn expr_break(
        break_token: Break,
        label: Option<Lifetime>,
        alloc: Global,
    ) -> Parsed<Box<Self::Expr>>
        ensures { OrMemory IsSyntax result (λ x. Self.expr_syntax x.value ≡ new Breaking (Both (break_syntax break_token) (Both (maybe syntax_of_lifetime label) (Right Nothing)))) };

    /// A call: arguments in parentheses.
    fn expr_call(
        func: Box<Self::Expr>,
        paren_token: Paren,
        args: Punctuated<Self::Expr, Comma>,
        alloc: Global,
    ) -> Parsed<Box<Self::Expr>>
        ensures { OrMemory IsSyntax result (λ x. Self.expr_syntax x.value ≡ new Call (Both (Self.expr_syntax func.value) (group_syntax grammar.Paren paren_token (list_of (λ e. Node (Self.expr_syntax e)) comma_syntax args.pairs args.last)))) };

    /// `as` and a type.
    fn expr_cast(
        expr: Box<Self::Expr>,
        as_token: As,
        ty: Box<Type>,
        alloc: Global,
    ) -> Parsed<Box<Self::Expr>>
        ensures { OrMemory IsSyntax result (λ x. Self.expr_syntax x.value ≡ new Cast (Both (Self.expr_syntax expr.value) (Both (as_syntax as_token) (syntax_of_Type ty.value)))) };

    /// `continue`, perhaps with a lifetime.
    fn expr_continue(
        continue_token: Continue,
        label: Option<Lifetime>,
        alloc: Global,
    ) -> Parsed<Box<Self::Expr>>
        ensures { OrMemory IsSyntax result (λ x. Self.expr_syntax x.value ≡ new Continuing (Both (continue_syntax continue_token) (maybe syntax_of_lifetime label))) };

    /// A field, by name or number.
    fn expr_field(
        base: Box<Self::Expr>,
        dot_token: Dot,
        member: Member,
        alloc: Global,
    ) -> Parsed<Box<Self::Expr>>
        ensures { OrMemory IsSyntax result (λ x. Self.expr_syntax x.value ≡ new Field (Both (Self.expr_syntax base.value) (Both (dot_syntax dot_token) (field_member (syntax_of_Member member))))) };

    /// `for`, perhaps with a label.
    fn expr_for_loop(
        attrs: Vec<Attribute>,
        label: Option<(Lifetime, Colon)>,
        for_token: For,
        pat: Box<Pat>,
        in_token: In,
        expr: Box<Self::Expr>,
        body: Self::Block,
        alloc: Global,
    ) -> Parsed<Box<Self::Expr>>
        ensures { OrMemory IsSyntax result (λ x. Self.expr_syntax x.value ≡ Shaped (expr_shape ForLoop) (Both (attributes_before_body attrs.items) (Both (label_syntax label) (Both (for_syntax for_token) (Both (syntax_of_Pat pat.value) (Both (in_syntax in_token) (Both (Node (Self.expr_syntax expr.value)) (body_syntax attrs.items (Self.block_syntax body))))))))) };

    /// An expression in a group without delimiters.
    fn expr_group(
        group_token: Group,
        expr: Box<Self::Expr>,
        alloc: Global,
    ) -> Parsed<Box<Self::Expr>>
        ensures { OrMemory IsSyntax result (λ x. Self.expr_syntax x.value ≡ new Grouped (group_syntax grammar.None group_token (Node (Self.expr_syntax expr.value)))) };

    /// `if`, perhaps with `else`.
    fn expr_if(
        if_token: If,
        cond: Box<Self::Expr>,
        then_branch: Self::Block,
        else_branch: Option<(Else, Box<Self::Expr>)>,
        alloc: Global,
    ) -> Parsed<Box<Self::Expr>>
        ensures { OrMemory IsSyntax result (λ x. Self.expr_syntax x.value ≡ new Choosing (Both (if_syntax if_token) (Both (Node (Self.expr_syntax cond.value)) (Both (Self.block_syntax then_branch) (maybe (λ p. Both (else_syntax p.0) (after_else (Self.expr_syntax p.1.value))) else_branch))))) };

    /// An index, in brackets.
    fn expr_index(
        expr: Box<Self::Expr>,
        bracket_token: Bracket,
        index: Box<Self::Expr>,
        alloc: Global,
    ) -> Parsed<Box<Self::Expr>>
        ensures { OrMemory IsSyntax result (λ x. Self.expr_syntax x.value ≡ new Index (Both (Self.expr_syntax expr.value) (group_syntax grammar.Bracket bracket_token (Node (Self.expr_syntax index.value))))) };

    /// A literal.
    fn expr_lit(lit: Lit, alloc: Global) -> Parsed<Box<Self::Expr>>
        ensures { OrMemory IsSyntax result (λ x. Self.expr_syntax x.value ≡ new Literals (token_of (syntax_of_Lit lit))) };

    /// `loop`, perhaps with a label.
    fn expr_loop(
        attrs: Vec<Attribute>,
        label: Option<(Lifetime, Colon)>,
        loop_token: Loop,
        body: Self::Block,
        alloc: Global,
    ) -> Parsed<Box<Self::Expr>>
        ensures { OrMemory IsSyntax result (λ x. Self.expr_syntax x.value ≡ Shaped (expr_shape Looping) (Both (attributes_before_body attrs.items) (Both (label_syntax label) (Both (loop_syntax loop_token) (body_syntax attrs.items (Self.block_syntax body)))))) };

    /// A macro.
    fn expr_macro(mac: Macro, alloc: Global) -> Parsed<Box<Self::Expr>>
        ensures { OrMemory IsSyntax result (λ x. Self.expr_syntax x.value ≡ new Macros mac) };

    /// A call of a method, perhaps with generic arguments.
    fn expr_method_call(
        receiver: Box<Self::Expr>,
        dot_token: Dot,
        method: Ident,
        turbofish: Option<AngleBracketedGenericArguments>,
        paren_token: Paren,
        args: Punctuated<Self::Expr, Comma>,
        alloc: Global,
    ) -> Parsed<Box<Self::Expr>>
        ensures { OrMemory IsSyntax result (λ x. Self.expr_syntax x.value ≡ new MethodCall (Both (Self.expr_syntax receiver.value) (Both (dot_syntax dot_token) (Node (Right (Both (syntax_of_ident method) (method_arguments turbofish (group_syntax grammar.Paren paren_token (list_of (λ e. Node (Self.expr_syntax e)) comma_syntax args.pairs args.last))))))))) };

    /// An expression in parentheses.
    fn expr_paren(
        paren_token: Paren,
        expr: Box<Self::Expr>,
        alloc: Global,
    ) -> Parsed<Box<Self::Expr>>
        ensures { OrMemory IsSyntax result (λ x. Self.expr_syntax x.value ≡ new Parens (group_syntax grammar.Paren paren_token (Node (Right (Both (Node (Self.expr_syntax expr.value)) (Right Nothing)))))) };

    /// A path, perhaps after a qualified type.
    fn expr_path(qself: Option<QSelf>, path: Path, alloc: Global) -> Parsed<Box<Self::Expr>>
        ensures { OrMemory IsSyntax result (λ x. Self.expr_syntax x.value ≡ new Paths (path_of qself path)) };

    /// `&`, perhaps with `mut`.
    fn expr_reference(
        and_token: And,
        mutability: Option<Mut>,
        expr: Box<Self::Expr>,
        alloc: Global,
    ) -> Parsed<Box<Self::Expr>>
        ensures { OrMemory IsSyntax result (λ x. Self.expr_syntax x.value ≡ new Reference (Both (and_syntax and_token) (Both (maybe mut_syntax mutability) (Node (Self.expr_syntax expr.value))))) };

    /// An expression and the number of its copies, in brackets.
    fn expr_repeat(
        bracket_token: Bracket,
        expr: Box<Self::Expr>,
        semi_token: Semi,
        len: Box<Self::Expr>,
        alloc: Global,
    ) -> Parsed<Box<Self::Expr>>
        ensures { OrMemory IsSyntax result (λ x. Self.expr_syntax x.value ≡ new Repeat (group_syntax grammar.Bracket bracket_token (Node (Right (Both (Node (Self.expr_syntax expr.value)) (Left (Both (semi_syntax semi_token) (Node (Self.expr_syntax len.value))))))))) };

    /// `return`, perhaps with an expression.
    fn expr_return(
        return_token: Return,
        expr: Option<Box<Self::Expr>>,
        alloc: Global,
    ) -> Parsed<Box<Self::Expr>>
        ensures { OrMemory IsSyntax result (λ x. Self.expr_syntax x.value ≡ new Returning (Both (return_syntax return_token) (maybe (λ e. Node (Self.expr_syntax e.value)) expr))) };

    /// A struct literal: a path, and fields in braces, perhaps with `..` and an expression.
    fn expr_struct(
        qself: Option<QSelf>,
        path: Path,
        brace_token: Brace,
        fields: Punctuated<Self::FieldValue, Comma>,
        dot2_token: Option<DotDot>,
        rest: Option<Box<Self::Expr>>,
        alloc: Global,
    ) -> Parsed<Box<Self::Expr>>
        ensures { OrMemory IsSyntax result (λ x. Self.expr_syntax x.value ≡ in_literal (path_of qself path) (group_syntax grammar.Brace brace_token (literal_of_parts (list_of Self.field_syntax comma_syntax fields.pairs fields.last) (maybe dot_dot_syntax dot2_token) (maybe (λ e. Node (Self.expr_syntax e.value)) rest)))) };

    /// A field of a struct literal, with its value.
    fn field_value(
        attrs: Vec<Attribute>,
        member: Member,
        colon_token: Colon,
        expr: Box<Self::Expr>,
    ) -> Self::FieldValue
        ensures { Self.field_syntax result ≡ field_of (attributes_syntax attrs.items) (syntax_of_Member member) (Left (colon_syntax colon_token)) (Self.expr_syntax expr.value) };

    /// A field of a struct literal whose value is the variable of its name.
    fn lone_field(attrs: Vec<Attribute>, name: Ident, alloc: Global) -> Parsed<Self::FieldValue>
        ensures { OrMemory IsSyntax result (λ f. Self.field_syntax f ≡ lone_field (attributes_syntax attrs.items) (syntax_of_ident name)) };

    /// `?` after an expression.
    fn expr_try(
        expr: Box<Self::Expr>,
        question_token: Question,
        alloc: Global,
    ) -> Parsed<Box<Self::Expr>>
        ensures { OrMemory IsSyntax result (λ x. Self.expr_syntax x.value ≡ new Try (Both (Self.expr_syntax expr.value) (question_syntax question_token))) };

    /// A tuple.
    fn expr_tuple(
        paren_token: Paren,
        elems: Punctuated<Self::Expr, Comma>,
        alloc: Global,
    ) -> Parsed<Box<Self::Expr>>
        ensures { OrMemory IsSyntax result (λ x. Self.expr_syntax x.value ≡ new Tuple (group_syntax grammar.Paren paren_token (tuple_elements (list_of (λ e. Node (Self.expr_syntax e)) comma_syntax elems.pairs elems.last)))) };

    /// A sign before an expression.
    fn expr_unary(op: UnOp, expr: Box<Self::Expr>, alloc: Global) -> Parsed<Box<Self::Expr>>
        ensures { OrMemory IsSyntax result (λ x. Self.expr_syntax x.value ≡ new Unary (Both (syntax_of_UnOp op) (Node (Self.expr_syntax expr.value)))) };

    /// `unsafe` and a block.
    fn expr_unsafe(
        attrs: Vec<Attribute>,
        unsafe_token: Unsafe,
        block: Self::Block,
        alloc: Global,
    ) -> Parsed<Box<Self::Expr>>
        ensures { OrMemory IsSyntax result (λ x. Self.expr_syntax x.value ≡ Shaped (expr_shape Unsafes) (Both (attributes_before_body attrs.items) (Both (unsafe_syntax unsafe_token) (body_syntax attrs.items (Self.block_syntax block))))) };

    /// `while`, perhaps with a label.
    fn expr_while(
        attrs: Vec<Attribute>,
        label: Option<(Lifetime, Colon)>,
        while_token: While,
        cond: Box<Self::Expr>,
        body: Self::Block,
        alloc: Global,
    ) -> Parsed<Box<Self::Expr>>
        ensures { OrMemory IsSyntax result (λ x. Self.expr_syntax x.value ≡ Shaped (expr_shape Whiles) (Both (attributes_before_body attrs.items) (Both (label_syntax label) (Both (while_syntax while_token) (Both (Node (Self.expr_syntax cond.value)) (body_syntax attrs.items (Self.block_syntax body))))))) };

    /// The expression with these outer attributes before its own, of which none may be an inner one that its print leaves out.
    fn with_attributes(attrs: Vec<Attribute>, expr: Box<Self::Expr>) -> Parsed<Box<Self::Expr>>
        requires outer { all_attributes_syntax attrs.items ≡ attributes_syntax attrs.items }
        requires shown { own_shown (Self.expr_syntax expr.value) ≡ true }
        ensures { OrMemory IsSyntax result (λ x. Self.expr_syntax x.value ≡ with_attributes_syntax (attributes_syntax attrs.items) (Self.expr_syntax expr.value)) };

    /// The expression with these outer attributes before those of its leftmost operand below operators.
    fn moved(attrs: Vec<Attribute>, expr: Box<Self::Expr>) -> Parsed<Box<Self::Expr>>
        requires outer { all_attributes_syntax attrs.items ≡ attributes_syntax attrs.items }
        requires shown { spine_shown (Self.expr_syntax expr.value) ≡ true }
        ensures { OrMemory IsSyntax result (λ x. Self.expr_syntax x.value ≡ moved_syntax (attributes_syntax attrs.items) (Self.expr_syntax expr.value)) };

    /// The expression without its box.
    fn unboxed(expr: Box<Self::Expr>) -> Self::Expr
        ensures { result ≡ expr.value };

    /// Statements in braces.
    fn block(brace_token: Brace, stmts: Vec<Self::Stmt>) -> Self::Block
        ensures { Self.block_syntax result ≡ Node (group_syntax grammar.Brace brace_token (statements_of Self.stmt_syntax stmts.items)) };

    /// An expression, held to make a statement of it.
    fn held(expr: Box<Self::Expr>) -> Self::Held
        ensures { Self.held_syntax result ≡ Self.expr_syntax expr.value };

    /// An expression as a statement. A macro with `;` is a macro's statement, and so is one in braces (`braces`).
    fn stmt(braces: bool, expr: Self::Held, semi: Option<Semi>) -> Self::Stmt
        ensures { Self.stmt_syntax result ≡ sentence_syntax braces (Self.held_syntax expr) (maybe semi_syntax semi) };

    /// `;` alone.
    fn semi_alone(semi: Semi, alloc: Global) -> Self::Stmt
        ensures { Self.stmt_syntax result ≡ Shaped said (Both (Shaped (expr_shape Verbatim) (Captured Nothing end)) (Left (semi_syntax semi))) };

    /// An item.
    fn item(item: DeferredItem) -> Self::Stmt
        ensures { Self.stmt_syntax result ≡ Shaped an_item item };

    /// `=`, a value, and perhaps `else` with a block.
    fn local_init(
        eq_token: Eq,
        expr: Box<Self::Expr>,
        diverge: Option<(Else, Box<Self::Expr>)>,
    ) -> Self::LocalInit
        ensures { Self.init_syntax result ≡ Both (eq_syntax eq_token) (Shaped untagged (Both (Such (Node (Self.expr_syntax expr.value))) (diverging (maybe (λ p. Both (else_syntax p.0) (block_after_else (Self.expr_syntax p.1.value))) diverge)))) };

    /// A local.
    fn local(
        attrs: Vec<Attribute>,
        let_token: Let,
        pat: Pat,
        init: Option<Self::LocalInit>,
        semi: Semi,
    ) -> Self::Stmt
        ensures { Self.stmt_syntax result ≡ Shaped a_local (Both (attributes_syntax attrs.items) (Node (Both (let_syntax let_token) (Both (local_pattern (syntax_of_Pat pat)) (Both (maybe Self.init_syntax init) (semi_syntax semi)))))) };
}
