//! Files.
ghost use Rattle.std.specs.Prelude.{◌≡◌, IfOk, IfErr, []};
ghost use Rattle.syn_grammar.specs.Same.{same_syntax};
ghost use Rattle.syn_tokens.specs.Leaves.{maybe};
ghost use Rattle.syn_item.specs.Files.{unshown_text};
ghost use Rattle.syn_tokens.specs.Faults.{out_of_memory};

mod parsing;

use crate::item::Item;
use crate::parts::print_members;
use std::alloc::{AllocError, Global};
use syn_lower::Attribute;
use syn_lower::attr::print_inner;
use syn_tokens::error;
use syn_tokens::print::Print;
use syn_tokens::stream::builder::StreamBuilder;
use syn_tokens::syntactic::compare::Compared;
use syn_tokens::syntactic::try_clone::TryClone;

/// A file: inner attributes and items. Its first line and its frontmatter are never read and never printed.
#[derive(Drop)]
pub struct File {
    pub shebang: Option<String>,
    pub frontmatter: Option<Frontmatter>,
    pub attrs: Vec<Attribute>,
    pub items: Vec<Item>,
}

/// What is between a file's first line and its attributes. It is never read.
#[derive(Clone, Copy, Debug, Default)]
pub struct Frontmatter {}

/// Neither the first line nor the frontmatter is printed, and no outer attributes.
impl Print for File {
    #[tactic(auto, using(syn_tokens::proofs::Prints::prints, syn_lower::proofs::Bodies::print_inner_listed))]
    fn print_in(&self, out: &mut StreamBuilder) -> Result<(), AllocError> {
        print_inner(&self.attrs, out)?;
        print_members(&self.items, out)
    }
}

/// A copy of a text.
fn copy_text(text: &Option<String>, alloc: Global) -> error::Result<Option<String>>
    ensures copy { IfOk result (λ copy. maybe unshown_text copy ≡ maybe unshown_text text.now) }
    ensures memory { IfErr result (λ e. e ≡ out_of_memory) }
{
    match text {
        Some(text) => {
            let mut copy = String::new(alloc);
            copy.push_str(text.as_str())?;
            Ok(Some(copy))
        }
        None => Ok(None),
    }
}

impl TryClone for File {
    #[tactic(auto, using(crate::proofs::Members::copied_members))]
    fn try_clone(&self, alloc: Global) -> error::Result<File> {
        Ok(File {
            shebang: copy_text(&self.shebang, alloc)?,
            frontmatter: self.frontmatter.try_clone(alloc)?,
            attrs: self.attrs.try_clone(alloc)?,
            items: self.items.try_clone(alloc)?,
        })
    }
}

/// Whether both texts are the same, or neither is there.
#[tactic(auto, using(syn_grammar::proofs::Same::bytes_same_text))]
fn is_same_text(text: &Option<String>, other: &Option<String>) -> bool
    ensures { result ≡ same_syntax (maybe unshown_text text.now) (maybe unshown_text other.now) }
{
    match (text, other) {
        (Some(text), Some(other)) => text.as_str() == other.as_str(),
        (None, None) => true,
        (Some(_), None) => false,
        (None, Some(_)) => false,
    }
}

impl Compared for File {
    #[tactic(auto, using(crate::proofs::SameFiles::same_file))]
    fn is_same(&self, other: &File) -> bool {
        is_same_text(&self.shebang, &other.shebang)
            && self.frontmatter.is_same(&other.frontmatter)
            && self.attrs.is_same(&other.attrs)
            && self.items.is_same(&other.items)
    }
}

// Written by tools/kinds.py from here to the end; edits are lost.

impl std::marker::Model for File {
    ghost use Rattle.syn_grammar.specs.Grammar.{Syntax};
    ghost use Rattle.syn_grammar.specs.TreeCodes.{syntax_code};

    ghost Value = { Syntax };

    ghost coded = { syntax_code };

    ghost use Rattle.syn_item.specs.Files.{view_File};

    ghost view = { view_File };
}

impl syn_tokens::syntactic::Syntactic for File {
    ghost use Rattle.syn_grammar.specs.Promises.{itself};

    ghost syntax = { itself };
}

impl syn_tokens::syntactic::Syntactic for Frontmatter {
    ghost use Rattle.syn_item.specs.Files.{syntax_of_Frontmatter};

    ghost syntax = { syntax_of_Frontmatter };
}
