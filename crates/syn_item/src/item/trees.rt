//! Items as the trees that deferred ones represent.
ghost use Rattle.syn_item.specs.Items.{syntax_of_Item};
ghost use Rattle.syn_item.specs.Parts.{members_of};

use super::Item;
use crate::parts::print_members;
use crate::pieces::members;
use std::alloc::AllocError;
use syn_parse::buffer::ParseBuffer;
use syn_parse::read::Read;
use syn_parse::read::refusal::Parsed;
use syn_recognize::deferred::TreeOf;
use syn_tokens::print::{Print, ToTokens};
use syn_tokens::stream::builder::StreamBuilder;
use syn_tokens::syntactic::Syntactic;

/// An item may be deferred, as among statements.
impl TreeOf<2> for Item {
    ghost whole = { syntax_of_Item };

    fn read_tree(input: &mut ParseBuffer<'_>) -> Parsed<Item> {
        Item::read(input)
    }
}

/// Items in a row, as a module holds them.
#[derive(Drop)]
pub struct Items(pub Vec<Item>);

impl Syntactic for Items {
    ghost syntax = { λ items. members_of syntax_of_Item items.0.items };
}

/// They are printed one after the other.
impl Print for Items {
    fn print_in(&self, out: &mut StreamBuilder) -> Result<(), AllocError> {
        print_members(&self.0, out)
    }
}

impl ToTokens for Items {}

/// The items of a module are deferred.
impl TreeOf<4> for Items {
    ghost whole = { λ items. members_of syntax_of_Item items.0.items };

    #[tactic(auto, using(crate::proofs::MemberLists::whole_items))]
    fn read_tree(input: &mut ParseBuffer<'_>) -> Parsed<Items> {
        Ok(Items(members(input)?))
    }
}
