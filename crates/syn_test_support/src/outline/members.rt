//! Members of traits that `kinds` has no outline of.

use super::parts::{show_bounds, show_mark, show_modifier, show_semi};
use crate::outline::{Outlined, TreeText};
use syn::item::{TraitItemConst, TraitItemFn, TraitItemType};

impl Outlined for TraitItemConst {
    fn show(&self, out: &mut TreeText) {
        out.attributes(&self.attrs);
        show_modifier(&self.modifiers.defaultness, out);
        out.token("const", self.const_token.span);
        self.ident.show(out);
        self.generics.show(out);
        out.mark(":", &self.colon_token);
        self.ty.show(out);
        out.value(&self.default);
        out.mark(";", &self.semi_token);
    }
}

impl Outlined for TraitItemFn {
    fn show(&self, out: &mut TreeText) {
        out.attributes(&self.attrs);
        show_modifier(&self.modifiers.defaultness, out);
        self.sig.show(out);
        match &self.default {
            Some(block) => block.show(out),
            None => {}
        }
        show_semi(&self.semi_token, out);
    }
}

impl Outlined for TraitItemType {
    fn show(&self, out: &mut TreeText) {
        out.attributes(&self.attrs);
        show_modifier(&self.modifiers.defaultness, out);
        out.token("type", self.type_token.span);
        self.ident.show(out);
        self.generics.show(out);
        show_mark(":", &self.colon_token, out);
        show_bounds(&self.bounds, out);
        if let Some((eq_token, ty)) = &self.default {
            out.mark("=", eq_token);
            ty.show(out);
        }
        out.mark(";", &self.semi_token);
    }
}
