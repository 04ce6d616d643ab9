//! What types are made of.

use std::alloc::{AllocError, Global};
use std::fmt::Write as _;
use syn::lower::{
    GenericArgument, Path, PathArguments, QSelf, ReturnType, Type, TypePath, TypePtr, TypeReference,
};
use syn::punctuated::Punctuated;
use syn::reader::token_text;
use syn::token::{Comma, TokenStream};
use syn::{Error, Result};

/// So deep trees are shown.
const DEPTH: usize = 30;

/// The text that shows a type.
pub(crate) fn type_known(alloc: Global, ty: &Type) -> Result<String> {
    let mut out = TypeText {
        text: String::new(alloc),
        is_refused: false,
    };
    show_type(ty, DEPTH, &mut out);
    if out.is_refused {
        Err(Error::from(AllocError))
    } else {
        Ok(out.text)
    }
}

/// A text that is being written. It keeps in mind whether memory was refused for any of it: so what adds to it has no answer, and no
/// way out at each part.
#[derive(Drop)]
struct TypeText {
    text: String,
    is_refused: bool,
}

impl TypeText {
    fn add(&mut self, text: &str) {
        if self.text.push_str(text).is_err() {
            self.is_refused = true;
        }
    }

    /// Adds the text of tokens.
    fn add_tokens(&mut self, tokens: &TokenStream) {
        match token_text(tokens) {
            Ok(text) => self.add(text.as_str()),
            Err(_) => self.is_refused = true,
        }
    }

    /// Adds how many words stand in the `< >` of a qualified path.
    fn add_position(&mut self, position: usize) {
        if write!(self.text, " {position} ").is_err() {
            self.is_refused = true;
        }
    }
}

/// Adds what shows a type: its kind, and in brackets what it holds.
#[cycle(show)]
fn show_type(ty: &Type, depth: usize, out: &mut TypeText) {
    if depth == 0 {
        out.add("..");
        return;
    }
    show_opening(ty, out);
    match ty {
        Type::Array(array) => {
            show_type(&array.elem, depth - 1, out);
            out.add(" ; ");
            out.add_tokens(array.len.source());
        }
        Type::Group(group) => show_type(&group.elem, depth - 1, out),
        Type::Never(_) => {}
        Type::Paren(paren) => show_type(&paren.elem, depth - 1, out),
        Type::Path(path) => show_type_path(path, depth - 1, out),
        Type::Ptr(pointer) => show_type(&pointer.elem, depth - 1, out),
        Type::Reference(reference) => show_type(&reference.elem, depth - 1, out),
        Type::Slice(slice) => show_type(&slice.elem, depth - 1, out),
        Type::Tuple(tuple) => show_types(&tuple.elems, depth - 1, out),
        Type::Verbatim(tokens) => out.add_tokens(tokens),
    }
    out.add(")");
}

/// Adds the kind of a type, with its words and an opening bracket.
fn show_opening(ty: &Type, out: &mut TypeText) {
    match ty {
        Type::Array(_) => out.add("array("),
        Type::Group(_) => out.add("group("),
        Type::Never(_) => out.add("never("),
        Type::Paren(_) => out.add("paren("),
        Type::Path(_) => out.add("path("),
        Type::Ptr(pointer) => show_pointer(pointer, out),
        Type::Reference(reference) => show_reference(reference, out),
        Type::Slice(_) => out.add("slice("),
        Type::Tuple(_) => out.add("tuple("),
        Type::Verbatim(_) => out.add("verbatim("),
    }
}

/// Adds what stands before the type of a pointer.
fn show_pointer(pointer: &TypePtr, out: &mut TypeText) {
    if pointer.const_token.is_some() {
        out.add("const ");
    }
    if pointer.mutability.is_some() {
        out.add("mut ");
    }
    out.add("pointer(");
}

/// Adds what stands before the type of a reference.
fn show_reference(reference: &TypeReference, out: &mut TypeText) {
    if let Some(lifetime) = &reference.lifetime {
        out.add("'");
        out.add(lifetime.ident.text());
        out.add(" ");
    }
    if reference.mutability.is_some() {
        out.add("mut ");
    }
    out.add("reference(");
}

/// Adds what shows some types, each with `,` where it has one.
#[cycle(show)]
fn show_types(types: &Punctuated<Type, Comma>, depth: usize, out: &mut TypeText) {
    if depth == 0 {
        out.add("..");
        return;
    }
    for (ty, _) in types.pairs() {
        show_type(ty, depth - 1, out);
        out.add(" , ");
    }
    if let Some(ty) = types.trailing_value() {
        show_type(ty, depth - 1, out);
    }
}

/// Adds what shows a path as a type; `as` stands behind the type of a qualified one, and the words of its trait are counted.
#[cycle(show)]
fn show_type_path(path: &TypePath, depth: usize, out: &mut TypeText) {
    if depth == 0 {
        out.add("..");
        return;
    }
    if let Some(qself) = &path.qself {
        show_type(&qself.ty, depth - 1, out);
        show_position(qself, out);
    }
    show_path(&path.path, depth - 1, out);
}

/// Adds how many words stand in the `< >` of a qualified path.
fn show_position(qself: &QSelf, out: &mut TypeText) {
    if qself.as_token.is_some() {
        out.add(" as");
    }
    out.add_position(qself.position);
}

/// Adds what shows a path.
#[cycle(show)]
fn show_path(path: &Path, depth: usize, out: &mut TypeText) {
    if depth == 0 {
        out.add("..");
        return;
    }
    if path.leading_colon.is_some() {
        out.add("::");
    }
    for (segment, _) in path.segments.pairs() {
        out.add(segment.ident.text());
        show_arguments(&segment.arguments, depth - 1, out);
        out.add("::");
    }
    if let Some(segment) = path.segments.trailing_value() {
        out.add(segment.ident.text());
        show_arguments(&segment.arguments, depth - 1, out);
    }
}

/// Adds what shows the arguments of a word.
#[cycle(show)]
fn show_arguments(arguments: &PathArguments, depth: usize, out: &mut TypeText) {
    if depth == 0 {
        out.add("..");
        return;
    }
    match arguments {
        PathArguments::None => {}
        PathArguments::AngleBracketed(angle) => {
            if angle.colon2_token.is_some() {
                out.add("::");
            }
            out.add("<");
            for (argument, _) in angle.args.pairs() {
                show_argument(argument, depth - 1, out);
                out.add(" , ");
            }
            if let Some(argument) = angle.args.trailing_value() {
                show_argument(argument, depth - 1, out);
            }
            out.add(">");
        }
        PathArguments::Parenthesized(parenthesized) => {
            out.add("(");
            show_types(&parenthesized.inputs, depth - 1, out);
            out.add(")");
            show_return(&parenthesized.output, depth - 1, out);
        }
    }
}

/// Adds what shows a return type.
#[cycle(show)]
fn show_return(output: &ReturnType, depth: usize, out: &mut TypeText) {
    if depth == 0 {
        out.add("..");
        return;
    }
    match output {
        ReturnType::Default => {}
        ReturnType::Ty(_, ty) => {
            out.add(" -> ");
            show_type(ty, depth - 1, out);
        }
    }
}

/// Adds what shows a generic argument.
#[cycle(show)]
fn show_argument(argument: &GenericArgument, depth: usize, out: &mut TypeText) {
    if depth == 0 {
        out.add("..");
        return;
    }
    match argument {
        GenericArgument::Lifetime(lifetime) => {
            out.add("lifetime ");
            out.add(lifetime.ident.text());
        }
        GenericArgument::Ty(ty) => show_type(ty, depth - 1, out),
        GenericArgument::Const(value) => {
            out.add("const ");
            out.add_tokens(value.source());
        }
        GenericArgument::AssocType(association) => {
            out.add(association.ident.text());
            out.add(" = ");
            show_type(&association.ty, depth - 1, out);
        }
    }
}
