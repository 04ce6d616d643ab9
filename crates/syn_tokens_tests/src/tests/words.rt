//! Each word: seen and parsed in its own text alone, and printed as that.
use crate::tests::spelling::assert_spelled;
use syn_tokens::token;

/// Fails where one of these types isn't the word of the first text of its row, or is the word of another text there.
macro_rules! assert_words {
    ($rt:ident; $($word:ident $row:literal)*) => {
        let alloc = $rt.alloc();
        $(assert_spelled::<token::$word>(&$rt, alloc, $row);)*
    };
}

#[test]
fn of_items(rt: HostRuntime) {
    assert_words!(rt;
        Const "const not r#const not consts"
        Enum "enum not r#enum not enums"
        Fn "fn not r#fn not fns"
        Impl "impl not r#impl not impls"
        Mod "mod not r#mod not mods"
        Static "static not r#static not statics");
}

#[test]
fn more_items(rt: HostRuntime) {
    assert_words!(rt;
        Struct "struct not r#struct not structs"
        Trait "trait not r#trait not traits"
        Type "type not r#type not types"
        Use "use not r#use not uses"
        Union "union not r#union not unions"
        Macro "macro not r#macro not macros");
}

#[test]
fn of_paths_and_scopes(rt: HostRuntime) {
    assert_words!(rt;
        Crate "crate not r#crate not crates"
        SelfType "Self not r#Self not Selfs"
        SelfValue "self not r#self not selfs"
        Super "super not r#super not supers"
        Pub "pub not r#pub not pubs"
        In "in not r#in not ins");
}

#[test]
fn of_modifiers(rt: HostRuntime) {
    assert_words!(rt;
        Extern "extern not r#extern not externs"
        Unsafe "unsafe not r#unsafe not unsafes"
        Safe "safe not r#safe not safes"
        Where "where not r#where not wheres"
        Default "default not r#default not defaults"
        Auto "auto not r#auto not autos");
}

#[test]
fn of_flow(rt: HostRuntime) {
    assert_words!(rt;
        Break "break not r#break not breaks"
        Continue "continue not r#continue not continues"
        Return "return not r#return not returns"
        Loop "loop not r#loop not loops"
        While "while not r#while not whiles"
        For "for not r#for not fors");
}

#[test]
fn of_choices(rt: HostRuntime) {
    assert_words!(rt;
        If "if not r#if not ifs"
        Else "else not r#else not elses"
        Match "match not r#match not matchs"
        Try "try not r#try not trys"
        Do "do not r#do not dos"
        Yield "yield not r#yield not yields");
}

#[test]
fn of_values(rt: HostRuntime) {
    assert_words!(rt;
        As "as not r#as not ass"
        False "false not r#false not falses"
        True "true not r#true not trues"
        Underscore "_ not r#_ not _s"
        Let "let not r#let not lets"
        Box "box not r#box not boxs");
}

#[test]
fn of_binding(rt: HostRuntime) {
    assert_words!(rt;
        Async "async not r#async not asyncs"
        Await "await not r#await not awaits"
        Dyn "dyn not r#dyn not dyns"
        Move "move not r#move not moves"
        Mut "mut not r#mut not muts"
        Ref "ref not r#ref not refs");
}

#[test]
fn of_reserved(rt: HostRuntime) {
    assert_words!(rt;
        Abstract "abstract not r#abstract not abstracts"
        Become "become not r#become not becomes"
        Final "final not r#final not finals"
        Override "override not r#override not overrides"
        Priv "priv not r#priv not privs");
}

#[test]
fn more_reserved(rt: HostRuntime) {
    assert_words!(rt;
        Typeof "typeof not r#typeof not typeofs"
        Unsized "unsized not r#unsized not unsizeds"
        Virtual "virtual not r#virtual not virtuals");
}
