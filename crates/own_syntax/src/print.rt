//! How routes are printed, as tokens.

use crate::route::{Guard, Parameter, Route, RoutePath};
use std::alloc::AllocError;
use syn::print::{Print, ToTokens, print_list};
use syn::token::StreamBuilder;

impl Print for RoutePath {
    fn print_in(&self, out: &mut StreamBuilder) -> Result<(), AllocError> {
        self.literal.print_in(out)
    }
}

impl Print for Parameter {
    #[tactic(auto, using(syn_tokens::proofs::Prints::prints))]
    fn print_in(&self, out: &mut StreamBuilder) -> Result<(), AllocError> {
        self.name.print_in(out)?;
        self.colon_token.print_in(out)?;
        self.ty.print_in(out)
    }
}

impl Print for Guard {
    #[tactic(auto, using(syn_tokens::proofs::Prints::prints))]
    fn print_in(&self, out: &mut StreamBuilder) -> Result<(), AllocError> {
        self.if_token.print_in(out)?;
        self.condition.print_in(out)
    }
}

impl Print for Route {
    #[tactic(auto, using(syn_tokens::proofs::Prints::groups))]
    fn print_in(&self, out: &mut StreamBuilder) -> Result<(), AllocError> {
        self.route_token.print_in(out)?;
        self.method.print_in(out)?;
        self.path.print_in(out)?;
        self.leads_to.print_in(out)?;
        self.target.print_in(out)?;
        self.bracket_token.open(out)?;
        print_list(&self.parameters, out)?;
        self.bracket_token.close(out)?;
        self.guard.print_in(out)
    }
}

impl ToTokens for RoutePath {}

impl ToTokens for Parameter {}

impl ToTokens for Guard {}

impl ToTokens for Route {}
