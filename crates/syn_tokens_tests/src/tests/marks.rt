//! Each mark: seen and parsed in its own characters alone, where they are joined, and printed as those.
use crate::tests::spelling::assert_spelled;
use syn_tokens::token;

/// Fails where one of these types isn't the mark of the first text of its row, or is the mark of another text there.
macro_rules! assert_marks {
    ($rt:ident; $($mark:ident $row:literal)*) => {
        let alloc = $rt.alloc();
        $(assert_spelled::<token::$mark>(&$rt, alloc, $row);)*
    };
}

#[test]
fn of_operators(rt: HostRuntime) {
    assert_marks!(rt;
        Caret "^ not &"
        Minus "- not +"
        Percent "% not $"
        Plus "+ not -"
        Slash "/ not *"
        Star "* not /");
}

#[test]
fn of_logic(rt: HostRuntime) {
    assert_marks!(rt;
        And "& not |"
        At "@ not #"
        Not "! not ?"
        Or "| not &"
        Question "? not !"
        Tilde "~ not '");
}

#[test]
fn of_comparisons(rt: HostRuntime) {
    assert_marks!(rt;
        Eq "= not -"
        Gt "> not <"
        Lt "< not >");
}

#[test]
fn of_separators(rt: HostRuntime) {
    assert_marks!(rt;
        Colon ": not ;"
        Comma ", not ."
        Dollar "$ not %"
        Dot ". not ,"
        Pound "# not @"
        Semi "; not :");
}

#[test]
fn of_two_in_operators(rt: HostRuntime) {
    assert_marks!(rt;
        AndAnd "&& not &= not & &"
        DotDot ".. not .= not . ."
        OrOr "|| not |= not | |"
        PathSep ":: not : not : :"
        Shl "<< not <= not < <"
        Shr ">> not >= not > >");
}

#[test]
fn of_assignments(rt: HostRuntime) {
    assert_marks!(rt;
        AndEq "&= not && not & ="
        CaretEq "^= not ^ not ^ ="
        MinusEq "-= not -> not - ="
        OrEq "|= not || not | ="
        PercentEq "%= not % not % ="
        PlusEq "+= not ++ not + ="
        SlashEq "/= not =/ not / ="
        StarEq "*= not =* not * =");
}

#[test]
fn of_two_in_comparisons(rt: HostRuntime) {
    assert_marks!(rt;
        EqEq "== not => not = ="
        FatArrow "=> not == not = >"
        Ge ">= not >> not > ="
        Le "<= not << not < ="
        Ne "!= not ! not ! ="
        RArrow "-> not -= not - >");
}

#[test]
fn of_three_characters(rt: HostRuntime) {
    assert_marks!(rt;
        DotDotDot "... not ..= not . . ."
        ShlEq "<<= not << not < < ="
        ShrEq ">>= not >=> not > > =");
}
