//! The trees that the parsers of `syn_expr_parse` make.
ghost use Rattle.std.specs.Prelude.{◌≡◌, true};
ghost use Rattle.syn_grammar.specs.Tokens as grammar;
ghost use Rattle.syn_grammar.specs.Tokens.{end};
ghost use Rattle.syn_grammar.specs.Grammar.{Both, Captured, Left, Node, Nothing, Right, Shaped, Such};
ghost use Rattle.syn_grammar.specs.Shape.{Array, Assign, Binary, Block as Blocks, Break as Breaking, Call, Cast, Continue as Continuing, Field, ForLoop, Grouped, If as Choosing, Index, Lit as Literals, Loop as Looping, Macro as Macros, MethodCall, Parens, Path as Paths, Reference, Repeat, Return as Returning, Try, Tuple, Unary, Unsafe as Unsafes, Verbatim, While as Whiles, a_local, an_item, expr as expr_shape, said, untagged};
ghost use Rattle.syn_grammar.specs.Values.{moved as moved_syntax, new, sentence as sentence_syntax, with_attributes as with_attributes_syntax};
ghost use Rattle.syn_grammar.specs.Promises.{OrMemory, itself};
ghost use Rattle.syn_tokens.specs.Kinds.{and_syntax, as_syntax, break_syntax, colon_syntax, comma_syntax, continue_syntax, dot_syntax, dot_dot_syntax, else_syntax, eq_syntax, for_syntax, if_syntax, in_syntax, let_syntax, loop_syntax, mut_syntax, question_syntax, return_syntax, semi_syntax, unsafe_syntax, while_syntax};
ghost use Rattle.syn_tokens.specs.Leaves.{maybe, syntax_of_ident};
ghost use Rattle.syn_tokens.specs.Listing.{list_of};
ghost use Rattle.syn_parse.specs.Refusals.{IsSyntax};
ghost use Rattle.syn_lower.specs.Attributes.{all_attributes_syntax, attributes_syntax};
ghost use Rattle.syn_lower.specs.Parts.{group_syntax};
ghost use Rattle.syn_lower.specs.Types.{syntax_of_Type, syntax_of_lifetime, tuple_elements};
ghost use Rattle.syn_lower.specs.Literals.{syntax_of_Lit};
ghost use Rattle.syn_lower.specs.Members.{syntax_of_Member};
ghost use Rattle.syn_pat.specs.Patterns.{local_pattern, path_of, syntax_of_Pat};
ghost use Rattle.syn_lower.specs.Bodies.{attributes_before_body, body as body_syntax};
ghost use Rattle.syn_expr_parse.specs.Operators.{syntax_of_BinOp, syntax_of_UnOp};
ghost use Rattle.syn_expr_parse.specs.Parts.{array_elements, after_else, block_after_else, diverging, field_member, label_syntax, method_arguments, statements_of, token_of};
ghost use Rattle.syn_expr_parse.specs.Primary.{in_literal};
ghost use Rattle.syn_expr_parse.specs.Spines.{spine_shown};
ghost use Rattle.syn_expr_parse.specs.StructLiterals.{field_of, literal_of_parts, lone_field};
ghost use Rattle.syn_expr_parse.specs.Unary.{own_shown};
ghost use Rattle.syn_expr.specs.Expressions.{syntax_of_Expr};
ghost use Rattle.syn_expr.specs.Statements.{statement_of, value_of_local};
ghost use Rattle.syn_expr.specs.Cores.{core_view};

mod attributes;
mod moving;
mod parts;

use crate::Expr;
use crate::expr::{
    ExprArray, ExprAssign, ExprBinary, ExprBlock, ExprBreak, ExprCall, ExprCast, ExprContinue,
    ExprField, ExprForLoop, ExprGroup, ExprIf, ExprIndex, ExprLit, ExprLoop, ExprMacro,
    ExprMethodCall, ExprParen, ExprPath, ExprReference, ExprRepeat, ExprReturn, ExprStruct,
    ExprTry, ExprTuple, ExprUnary, ExprUnsafe, ExprWhile, FieldValue,
};
use crate::op::{BinOp, UnOp};
use crate::stmt::{Block, Local, LocalInit, LocalModifiers, Stmt};
use parts::{boxed, labelled, named, out_of_box};
use std::alloc::Global;
use syn_expr_parse::trees::Trees;
use syn_lower::{AngleBracketedGenericArguments, Attribute, Lit, Member, Path, QSelf, Type};
use syn_parse::read::refusal::Parsed;
use syn_pat::{Macro, Pat};
use syn_recognize::deferred::DeferredItem;
use syn_tokens::ident::Ident;
use syn_tokens::lifetime::Lifetime;
use syn_tokens::punctuated::Punctuated;
use syn_tokens::stream::TokenStream;
use syn_tokens::token::{
    And, As, Brace, Bracket, Break, Colon, Comma, Continue, Dot, DotDot, Else, Eq, For, Group, If,
    In, Let, Loop, Mut, Paren, Question, Return, Semi, Unsafe, While,
};

/// The trees of this crate.
pub(crate) struct ExprTrees;

impl Trees for ExprTrees {
    type Expr = Expr;

    type Block = Block;

    type Stmt = Stmt;

    type LocalInit = LocalInit;

    type Held = LocalInit;

    type FieldValue = FieldValue;

    ghost expr_syntax = { syntax_of_Expr };

    ghost block_syntax = { itself };

    ghost stmt_syntax = { statement_of };

    ghost init_syntax = { itself };

    ghost held_syntax = { value_of_local };

    ghost field_syntax = { itself };

    ghost core_is = { core_view };

    #[tactic(auto, using(crate::proofs::Attributes::no_attributes))]
    fn expr_array(
        bracket_token: Bracket,
        elems: Punctuated<Expr, Comma>,
        alloc: Global,
    ) -> Parsed<Box<Expr>>
        ensures { OrMemory IsSyntax result (λ x. syntax_of_Expr x.value ≡ new Array (group_syntax grammar.Bracket bracket_token (array_elements (list_of (λ e. Node (syntax_of_Expr e)) comma_syntax elems.pairs elems.last)))) }
    {
        boxed(
            Expr::Array(ExprArray {
                attrs: Vec::new(alloc),
                bracket_token,
                elems,
            }),
            alloc,
        )
    }

    #[tactic(auto, using(crate::proofs::Attributes::no_attributes))]
    fn expr_assign(
        left: Box<Expr>,
        eq_token: Eq,
        right: Box<Expr>,
        alloc: Global,
    ) -> Parsed<Box<Expr>>
        ensures { OrMemory IsSyntax result (λ x. syntax_of_Expr x.value ≡ new Assign (Both (syntax_of_Expr left.value) (Both (eq_syntax eq_token) (Node (syntax_of_Expr right.value))))) }
    {
        boxed(
            Expr::Assign(ExprAssign {
                attrs: Vec::new(alloc),
                left,
                eq_token,
                right,
            }),
            alloc,
        )
    }

    #[tactic(auto, using(crate::proofs::Attributes::no_attributes))]
    fn expr_binary(left: Box<Expr>, op: BinOp, right: Box<Expr>, alloc: Global) -> Parsed<Box<Expr>>
        ensures { OrMemory IsSyntax result (λ x. syntax_of_Expr x.value ≡ new Binary (Both (syntax_of_Expr left.value) (Both (syntax_of_BinOp op) (Node (syntax_of_Expr right.value))))) }
    {
        boxed(
            Expr::Binary(ExprBinary {
                attrs: Vec::new(alloc),
                left,
                op,
                right,
            }),
            alloc,
        )
    }

    #[tactic(auto, using(crate::proofs::Attributes::no_attributes))]
    fn expr_block(
        attrs: Vec<Attribute>,
        label: Option<(Lifetime, Colon)>,
        block: Block,
        alloc: Global,
    ) -> Parsed<Box<Expr>>
        ensures { OrMemory IsSyntax result (λ x. syntax_of_Expr x.value ≡ Shaped (expr_shape Blocks) (Both (attributes_before_body attrs.items) (Both (label_syntax label) (body_syntax attrs.items block)))) }
    {
        boxed(
            Expr::Block(ExprBlock {
                attrs,
                label: labelled(label),
                block,
            }),
            alloc,
        )
    }

    #[tactic(auto, using(crate::proofs::Attributes::no_attributes))]
    fn expr_break(break_token: Break, label: Option<Lifetime>, alloc: Global) -> Parsed<Box<Expr>>
        ensures { OrMemory IsSyntax result (λ x. syntax_of_Expr x.value ≡ new Breaking (Both (break_syntax break_token) (Both (maybe syntax_of_lifetime label) (Right Nothing)))) }
    {
        boxed(
            Expr::Break(ExprBreak {
                attrs: Vec::new(alloc),
                break_token,
                label,
            }),
            alloc,
        )
    }

    #[tactic(auto, using(crate::proofs::Attributes::no_attributes))]
    fn expr_call(
        func: Box<Expr>,
        paren_token: Paren,
        args: Punctuated<Expr, Comma>,
        alloc: Global,
    ) -> Parsed<Box<Expr>>
        ensures { OrMemory IsSyntax result (λ x. syntax_of_Expr x.value ≡ new Call (Both (syntax_of_Expr func.value) (group_syntax grammar.Paren paren_token (list_of (λ e. Node (syntax_of_Expr e)) comma_syntax args.pairs args.last)))) }
    {
        boxed(
            Expr::Call(ExprCall {
                attrs: Vec::new(alloc),
                func,
                paren_token,
                args,
            }),
            alloc,
        )
    }

    #[tactic(auto, using(crate::proofs::Attributes::no_attributes))]
    fn expr_cast(expr: Box<Expr>, as_token: As, ty: Box<Type>, alloc: Global) -> Parsed<Box<Expr>>
        ensures { OrMemory IsSyntax result (λ x. syntax_of_Expr x.value ≡ new Cast (Both (syntax_of_Expr expr.value) (Both (as_syntax as_token) (syntax_of_Type ty.value)))) }
    {
        boxed(
            Expr::Cast(ExprCast {
                attrs: Vec::new(alloc),
                expr,
                as_token,
                ty,
            }),
            alloc,
        )
    }

    #[tactic(auto, using(crate::proofs::Attributes::no_attributes))]
    fn expr_continue(
        continue_token: Continue,
        label: Option<Lifetime>,
        alloc: Global,
    ) -> Parsed<Box<Expr>>
        ensures { OrMemory IsSyntax result (λ x. syntax_of_Expr x.value ≡ new Continuing (Both (continue_syntax continue_token) (maybe syntax_of_lifetime label))) }
    {
        boxed(
            Expr::Continue(ExprContinue {
                attrs: Vec::new(alloc),
                continue_token,
                label,
            }),
            alloc,
        )
    }

    #[tactic(auto, using(crate::proofs::Attributes::no_attributes))]
    fn expr_field(
        base: Box<Expr>,
        dot_token: Dot,
        member: Member,
        alloc: Global,
    ) -> Parsed<Box<Expr>>
        ensures { OrMemory IsSyntax result (λ x. syntax_of_Expr x.value ≡ new Field (Both (syntax_of_Expr base.value) (Both (dot_syntax dot_token) (field_member (syntax_of_Member member))))) }
    {
        boxed(
            Expr::Field(ExprField {
                attrs: Vec::new(alloc),
                base,
                dot_token,
                member,
            }),
            alloc,
        )
    }

    #[tactic(auto, using(crate::proofs::Attributes::no_attributes))]
    fn expr_for_loop(
        attrs: Vec<Attribute>,
        label: Option<(Lifetime, Colon)>,
        for_token: For,
        pat: Box<Pat>,
        in_token: In,
        expr: Box<Expr>,
        body: Block,
        alloc: Global,
    ) -> Parsed<Box<Expr>>
        ensures { OrMemory IsSyntax result (λ x. syntax_of_Expr x.value ≡ Shaped (expr_shape ForLoop) (Both (attributes_before_body attrs.items) (Both (label_syntax label) (Both (for_syntax for_token) (Both (syntax_of_Pat pat.value) (Both (in_syntax in_token) (Both (Node (syntax_of_Expr expr.value)) (body_syntax attrs.items body)))))))) }
    {
        boxed(
            Expr::ForLoop(ExprForLoop {
                attrs,
                label: labelled(label),
                for_token,
                pat,
                in_token,
                expr,
                body,
            }),
            alloc,
        )
    }

    #[tactic(auto, using(crate::proofs::Attributes::no_attributes))]
    fn expr_group(group_token: Group, expr: Box<Expr>, alloc: Global) -> Parsed<Box<Expr>>
        ensures { OrMemory IsSyntax result (λ x. syntax_of_Expr x.value ≡ new Grouped (group_syntax grammar.None group_token (Node (syntax_of_Expr expr.value)))) }
    {
        boxed(
            Expr::Group(ExprGroup {
                attrs: Vec::new(alloc),
                group_token,
                expr,
            }),
            alloc,
        )
    }

    #[tactic(auto, using(crate::proofs::Attributes::no_attributes))]
    fn expr_if(
        if_token: If,
        cond: Box<Expr>,
        then_branch: Block,
        else_branch: Option<(Else, Box<Expr>)>,
        alloc: Global,
    ) -> Parsed<Box<Expr>>
        ensures { OrMemory IsSyntax result (λ x. syntax_of_Expr x.value ≡ new Choosing (Both (if_syntax if_token) (Both (Node (syntax_of_Expr cond.value)) (Both then_branch (maybe (λ p. Both (else_syntax p.0) (after_else (syntax_of_Expr p.1.value))) else_branch))))) }
    {
        boxed(
            Expr::If(ExprIf {
                attrs: Vec::new(alloc),
                if_token,
                cond,
                then_branch,
                else_branch,
            }),
            alloc,
        )
    }

    #[tactic(auto, using(crate::proofs::Attributes::no_attributes))]
    fn expr_index(
        expr: Box<Expr>,
        bracket_token: Bracket,
        index: Box<Expr>,
        alloc: Global,
    ) -> Parsed<Box<Expr>>
        ensures { OrMemory IsSyntax result (λ x. syntax_of_Expr x.value ≡ new Index (Both (syntax_of_Expr expr.value) (group_syntax grammar.Bracket bracket_token (Node (syntax_of_Expr index.value))))) }
    {
        boxed(
            Expr::Index(ExprIndex {
                attrs: Vec::new(alloc),
                expr,
                bracket_token,
                index,
            }),
            alloc,
        )
    }

    #[tactic(auto, using(crate::proofs::Attributes::no_attributes))]
    fn expr_lit(lit: Lit, alloc: Global) -> Parsed<Box<Expr>>
        ensures { OrMemory IsSyntax result (λ x. syntax_of_Expr x.value ≡ new Literals (token_of (syntax_of_Lit lit))) }
    {
        boxed(
            Expr::Lit(ExprLit {
                attrs: Vec::new(alloc),
                lit,
            }),
            alloc,
        )
    }

    #[tactic(auto, using(crate::proofs::Attributes::no_attributes))]
    fn expr_loop(
        attrs: Vec<Attribute>,
        label: Option<(Lifetime, Colon)>,
        loop_token: Loop,
        body: Block,
        alloc: Global,
    ) -> Parsed<Box<Expr>>
        ensures { OrMemory IsSyntax result (λ x. syntax_of_Expr x.value ≡ Shaped (expr_shape Looping) (Both (attributes_before_body attrs.items) (Both (label_syntax label) (Both (loop_syntax loop_token) (body_syntax attrs.items body))))) }
    {
        boxed(
            Expr::Loop(ExprLoop {
                attrs,
                label: labelled(label),
                loop_token,
                body,
            }),
            alloc,
        )
    }

    #[tactic(auto, using(crate::proofs::Attributes::no_attributes))]
    fn expr_macro(mac: Macro, alloc: Global) -> Parsed<Box<Expr>>
        ensures { OrMemory IsSyntax result (λ x. syntax_of_Expr x.value ≡ new Macros mac) }
    {
        boxed(
            Expr::Macro(ExprMacro {
                attrs: Vec::new(alloc),
                mac,
            }),
            alloc,
        )
    }

    #[tactic(auto, using(crate::proofs::Attributes::no_attributes))]
    fn expr_method_call(
        receiver: Box<Expr>,
        dot_token: Dot,
        method: Ident,
        turbofish: Option<AngleBracketedGenericArguments>,
        paren_token: Paren,
        args: Punctuated<Expr, Comma>,
        alloc: Global,
    ) -> Parsed<Box<Expr>>
        ensures { OrMemory IsSyntax result (λ x. syntax_of_Expr x.value ≡ new MethodCall (Both (syntax_of_Expr receiver.value) (Both (dot_syntax dot_token) (Node (Right (Both (syntax_of_ident method) (method_arguments turbofish (group_syntax grammar.Paren paren_token (list_of (λ e. Node (syntax_of_Expr e)) comma_syntax args.pairs args.last))))))))) }
    {
        boxed(
            Expr::MethodCall(ExprMethodCall {
                attrs: Vec::new(alloc),
                receiver,
                dot_token,
                method,
                turbofish,
                paren_token,
                args,
            }),
            alloc,
        )
    }

    #[tactic(auto, using(crate::proofs::Attributes::no_attributes))]
    fn expr_paren(paren_token: Paren, expr: Box<Expr>, alloc: Global) -> Parsed<Box<Expr>>
        ensures { OrMemory IsSyntax result (λ x. syntax_of_Expr x.value ≡ new Parens (group_syntax grammar.Paren paren_token (Node (Right (Both (Node (syntax_of_Expr expr.value)) (Right Nothing)))))) }
    {
        boxed(
            Expr::Paren(ExprParen {
                attrs: Vec::new(alloc),
                paren_token,
                expr,
            }),
            alloc,
        )
    }

    #[tactic(auto, using(crate::proofs::Attributes::no_attributes))]
    fn expr_path(qself: Option<QSelf>, path: Path, alloc: Global) -> Parsed<Box<Expr>>
        ensures { OrMemory IsSyntax result (λ x. syntax_of_Expr x.value ≡ new Paths (path_of qself path)) }
    {
        boxed(
            Expr::Path(ExprPath {
                attrs: Vec::new(alloc),
                qself,
                path,
            }),
            alloc,
        )
    }

    #[tactic(auto, using(crate::proofs::Attributes::no_attributes))]
    fn expr_reference(
        and_token: And,
        mutability: Option<Mut>,
        expr: Box<Expr>,
        alloc: Global,
    ) -> Parsed<Box<Expr>>
        ensures { OrMemory IsSyntax result (λ x. syntax_of_Expr x.value ≡ new Reference (Both (and_syntax and_token) (Both (maybe mut_syntax mutability) (Node (syntax_of_Expr expr.value))))) }
    {
        boxed(
            Expr::Reference(ExprReference {
                attrs: Vec::new(alloc),
                and_token,
                mutability,
                expr,
            }),
            alloc,
        )
    }

    #[tactic(auto, using(crate::proofs::Attributes::no_attributes))]
    fn expr_repeat(
        bracket_token: Bracket,
        expr: Box<Expr>,
        semi_token: Semi,
        len: Box<Expr>,
        alloc: Global,
    ) -> Parsed<Box<Expr>>
        ensures { OrMemory IsSyntax result (λ x. syntax_of_Expr x.value ≡ new Repeat (group_syntax grammar.Bracket bracket_token (Node (Right (Both (Node (syntax_of_Expr expr.value)) (Left (Both (semi_syntax semi_token) (Node (syntax_of_Expr len.value))))))))) }
    {
        boxed(
            Expr::Repeat(ExprRepeat {
                attrs: Vec::new(alloc),
                bracket_token,
                expr,
                semi_token,
                len,
            }),
            alloc,
        )
    }

    #[tactic(auto, using(crate::proofs::Attributes::no_attributes))]
    fn expr_return(
        return_token: Return,
        expr: Option<Box<Expr>>,
        alloc: Global,
    ) -> Parsed<Box<Expr>>
        ensures { OrMemory IsSyntax result (λ x. syntax_of_Expr x.value ≡ new Returning (Both (return_syntax return_token) (maybe (λ e. Node (syntax_of_Expr e.value)) expr))) }
    {
        boxed(
            Expr::Return(ExprReturn {
                attrs: Vec::new(alloc),
                return_token,
                expr,
            }),
            alloc,
        )
    }

    #[tactic(auto, using(crate::proofs::Attributes::no_attributes))]
    fn expr_struct(
        qself: Option<QSelf>,
        path: Path,
        brace_token: Brace,
        fields: Punctuated<FieldValue, Comma>,
        dot2_token: Option<DotDot>,
        rest: Option<Box<Expr>>,
        alloc: Global,
    ) -> Parsed<Box<Expr>>
        ensures { OrMemory IsSyntax result (λ x. syntax_of_Expr x.value ≡ in_literal (path_of qself path) (group_syntax grammar.Brace brace_token (literal_of_parts (list_of itself comma_syntax fields.pairs fields.last) (maybe dot_dot_syntax dot2_token) (maybe (λ e. Node (syntax_of_Expr e.value)) rest)))) }
    {
        boxed(
            Expr::Struct(ExprStruct {
                attrs: Vec::new(alloc),
                qself,
                path,
                brace_token,
                fields,
                dot2_token,
                rest,
            }),
            alloc,
        )
    }

    fn field_value(
        attrs: Vec<Attribute>,
        member: Member,
        colon_token: Colon,
        expr: Box<Expr>,
    ) -> FieldValue
        ensures { result ≡ field_of (attributes_syntax attrs.items) (syntax_of_Member member) (Left (colon_syntax colon_token)) (syntax_of_Expr expr.value) }
    {
        FieldValue {
            attrs,
            member,
            colon_token: Some(colon_token),
            expr: out_of_box(expr),
        }
    }

    #[tactic(auto, using(crate::proofs::Fields::named_hidden))]
    fn lone_field(attrs: Vec<Attribute>, name: Ident, alloc: Global) -> Parsed<FieldValue>
        ensures { OrMemory IsSyntax result (λ f. f ≡ lone_field (attributes_syntax attrs.items) (syntax_of_ident name)) }
    {
        let expr = named(&name, alloc)?;
        Ok(FieldValue {
            attrs,
            member: Member::Named(name),
            colon_token: None,
            expr,
        })
    }

    #[tactic(auto, using(crate::proofs::Attributes::no_attributes))]
    fn expr_try(expr: Box<Expr>, question_token: Question, alloc: Global) -> Parsed<Box<Expr>>
        ensures { OrMemory IsSyntax result (λ x. syntax_of_Expr x.value ≡ new Try (Both (syntax_of_Expr expr.value) (question_syntax question_token))) }
    {
        boxed(
            Expr::Try(ExprTry {
                attrs: Vec::new(alloc),
                expr,
                question_token,
            }),
            alloc,
        )
    }

    #[tactic(auto, using(crate::proofs::Attributes::no_attributes))]
    fn expr_tuple(
        paren_token: Paren,
        elems: Punctuated<Expr, Comma>,
        alloc: Global,
    ) -> Parsed<Box<Expr>>
        ensures { OrMemory IsSyntax result (λ x. syntax_of_Expr x.value ≡ new Tuple (group_syntax grammar.Paren paren_token (tuple_elements (list_of (λ e. Node (syntax_of_Expr e)) comma_syntax elems.pairs elems.last)))) }
    {
        boxed(
            Expr::Tuple(ExprTuple {
                attrs: Vec::new(alloc),
                paren_token,
                elems,
            }),
            alloc,
        )
    }

    #[tactic(auto, using(crate::proofs::Attributes::no_attributes))]
    fn expr_unary(op: UnOp, expr: Box<Expr>, alloc: Global) -> Parsed<Box<Expr>>
        ensures { OrMemory IsSyntax result (λ x. syntax_of_Expr x.value ≡ new Unary (Both (syntax_of_UnOp op) (Node (syntax_of_Expr expr.value)))) }
    {
        boxed(
            Expr::Unary(ExprUnary {
                attrs: Vec::new(alloc),
                op,
                expr,
            }),
            alloc,
        )
    }

    #[tactic(auto, using(crate::proofs::Attributes::no_attributes))]
    fn expr_unsafe(
        attrs: Vec<Attribute>,
        unsafe_token: Unsafe,
        block: Block,
        alloc: Global,
    ) -> Parsed<Box<Expr>>
        ensures { OrMemory IsSyntax result (λ x. syntax_of_Expr x.value ≡ Shaped (expr_shape Unsafes) (Both (attributes_before_body attrs.items) (Both (unsafe_syntax unsafe_token) (body_syntax attrs.items block)))) }
    {
        boxed(
            Expr::Unsafe(ExprUnsafe {
                attrs,
                unsafe_token,
                block,
            }),
            alloc,
        )
    }

    #[tactic(auto, using(crate::proofs::Attributes::no_attributes))]
    fn expr_while(
        attrs: Vec<Attribute>,
        label: Option<(Lifetime, Colon)>,
        while_token: While,
        cond: Box<Expr>,
        body: Block,
        alloc: Global,
    ) -> Parsed<Box<Expr>>
        ensures { OrMemory IsSyntax result (λ x. syntax_of_Expr x.value ≡ Shaped (expr_shape Whiles) (Both (attributes_before_body attrs.items) (Both (label_syntax label) (Both (while_syntax while_token) (Both (Node (syntax_of_Expr cond.value)) (body_syntax attrs.items body)))))) }
    {
        boxed(
            Expr::While(ExprWhile {
                attrs,
                label: labelled(label),
                while_token,
                cond,
                body,
            }),
            alloc,
        )
    }

    fn with_attributes(attrs: Vec<Attribute>, expr: Box<Expr>) -> Parsed<Box<Expr>>
        requires outer { all_attributes_syntax attrs.items ≡ attributes_syntax attrs.items }
        requires shown { own_shown (syntax_of_Expr expr.value) ≡ true }
        ensures { OrMemory IsSyntax result (λ x. syntax_of_Expr x.value ≡ with_attributes_syntax (attributes_syntax attrs.items) (syntax_of_Expr expr.value)) }
    {
        attributes::with_attributes(attrs, expr)
    }

    fn moved(attrs: Vec<Attribute>, expr: Box<Expr>) -> Parsed<Box<Expr>>
        requires outer { all_attributes_syntax attrs.items ≡ attributes_syntax attrs.items }
        requires shown { spine_shown (syntax_of_Expr expr.value) ≡ true }
        ensures { OrMemory IsSyntax result (λ x. syntax_of_Expr x.value ≡ moved_syntax (attributes_syntax attrs.items) (syntax_of_Expr expr.value)) }
    {
        moving::moved(attrs, expr)
    }

    fn unboxed(expr: Box<Expr>) -> Expr
        ensures { result ≡ expr.value }
    {
        out_of_box(expr)
    }

    fn block(brace_token: Brace, stmts: Vec<Stmt>) -> Block
        ensures { result ≡ Node (group_syntax grammar.Brace brace_token (statements_of statement_of stmts.items)) }
    {
        Block { brace_token, stmts }
    }

    fn held(expr: Box<Expr>) -> LocalInit
        ensures { value_of_local result ≡ syntax_of_Expr expr.value }
    {
        LocalInit::holding(expr)
    }

    fn stmt(braces: bool, expr: LocalInit, semi: Option<Semi>) -> Stmt
        ensures { statement_of result ≡ sentence_syntax braces (value_of_local expr) (maybe semi_syntax semi) }
    {
        expr.into_stmt(braces, semi)
    }

    fn semi_alone(semi: Semi, alloc: Global) -> Stmt
        ensures { statement_of result ≡ Shaped said (Both (Shaped (expr_shape Verbatim) (Captured Nothing end)) (Left (semi_syntax semi))) }
    {
        Stmt::Expr(Expr::Verbatim(TokenStream::new(alloc)), Some(semi))
    }

    fn item(item: DeferredItem) -> Stmt
        ensures { statement_of result ≡ Shaped an_item item }
    {
        Stmt::Item(item)
    }

    fn local_init(eq_token: Eq, expr: Box<Expr>, diverge: Option<(Else, Box<Expr>)>) -> LocalInit
        ensures { result ≡ Both (eq_syntax eq_token) (Shaped untagged (Both (Such (Node (syntax_of_Expr expr.value))) (diverging (maybe (λ p. Both (else_syntax p.0) (block_after_else (syntax_of_Expr p.1.value))) diverge)))) }
    {
        LocalInit {
            eq_token,
            expr,
            diverge,
        }
    }

    fn local(
        attrs: Vec<Attribute>,
        let_token: Let,
        pat: Pat,
        init: Option<LocalInit>,
        semi: Semi,
    ) -> Stmt
        ensures { statement_of result ≡ Shaped a_local (Both (attributes_syntax attrs.items) (Node (Both (let_syntax let_token) (Both (local_pattern (syntax_of_Pat pat)) (Both (maybe itself init) (semi_syntax semi)))))) }
    {
        Stmt::Local(Local {
            attrs,
            let_token,
            modifiers: LocalModifiers {},
            pat,
            init,
            semi_token: semi,
        })
    }
}
