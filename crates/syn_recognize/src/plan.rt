//! Written by tools/recognizers.py; edits are lost.
//!
//! The plans of unions as data.
ghost use Rattle.std.specs.Prelude.{◌≡◌};
ghost use Rattle.syn_grammar.specs.Run.{parse_form};
ghost use Rattle.syn_recognize.specs.Courses.{course_of};
ghost use Rattle.syn_recognize.specs.Forms.{grammar_of};
ghost use Rattle.syn_recognize.specs.Parts.{planned_1_part, planned_2_part, planned_3_part, planned_4_part, planned_5_part};
ghost use Rattle.syn_recognize.specs.Stages.{stage_course, planned_course, series_1_course, series_2_course, series_3_course, series_4_course, series_5_course, series_6_course};

use crate::fading::Fading;
use crate::fault::Fault;
use crate::form::Form;
use crate::list::List;
use crate::look::Look;
use crate::rules::{Part, Rule};
use crate::shape::{Shape, Variant};
use crate::token::Token;
use crate::words::{Mark, Word};
use syn_tokens::delimiter::Delimiter;

/// A plan: one reading of a union, without a trial.
#[derive(Clone, Copy)]
pub enum Plan {
    /// The plan of this stage.
    Go(Stage),
    /// Reads a form, and continues.
    Reads(&'static Form, &'static Plan),
    /// Continues with the plan that the lookahead selects.
    Turns(Look, &'static Plan, &'static Plan),
    /// Reads trees of a use in braces, and selects a plan by whether one of them has `::` before it.
    Rooted(&'static Plan, &'static Plan),
    /// A plan, followed by a form.
    Then(&'static Plan, &'static Form),
    /// It is of a kind: reads the rest.
    Rest(&'static Form),
    /// Its tokens are stored verbatim: reads the rest.
    Kept(&'static Form),
    /// Reads the generics of an impl, and continues.
    Lists(&'static Plan),
    /// Notes whether the next tokens would be read as generics.
    Led(&'static Plan),
    /// Reads `for` and the self type of an impl.
    SelfType(&'static Plan),
}

/// A form that is read by a plan.
#[derive(Clone, Copy)]
pub enum Planned {
    Item,
    TraitItem,
    ImplItem,
    ForeignItem,
    CrateMacro,
    DeriveInput,
    Statements,
    Statement,
    UseItemRest,
    TypeItemRest,
    ImplDefinitionRest,
}

/// A series of stages.
#[derive(Clone, Copy)]
enum Series {
    Series1,
    Series2,
    Series3,
    Series4,
    Series5,
    Series6,
}

/// A stage of a plan.
#[derive(Clone, Copy)]
pub struct Stage {
    series: Series,
    place: u8,
}

impl Stage {
    const STAGE_1: Stage = Stage {
        series: Series::Series1,
        place: 0,
    };

    const STAGE_2: Stage = Stage {
        series: Series::Series1,
        place: 1,
    };

    const STAGE_3: Stage = Stage {
        series: Series::Series1,
        place: 2,
    };

    const STAGE_4: Stage = Stage {
        series: Series::Series1,
        place: 3,
    };

    const STAGE_5: Stage = Stage {
        series: Series::Series1,
        place: 4,
    };

    const STAGE_6: Stage = Stage {
        series: Series::Series1,
        place: 5,
    };

    const STAGE_7: Stage = Stage {
        series: Series::Series1,
        place: 6,
    };

    const STAGE_8: Stage = Stage {
        series: Series::Series1,
        place: 7,
    };

    const STAGE_9: Stage = Stage {
        series: Series::Series1,
        place: 8,
    };

    const STAGE_10: Stage = Stage {
        series: Series::Series1,
        place: 9,
    };

    const STAGE_11: Stage = Stage {
        series: Series::Series1,
        place: 10,
    };

    const STAGE_12: Stage = Stage {
        series: Series::Series1,
        place: 11,
    };

    const STAGE_13: Stage = Stage {
        series: Series::Series1,
        place: 12,
    };

    const STAGE_14: Stage = Stage {
        series: Series::Series1,
        place: 13,
    };

    const STAGE_15: Stage = Stage {
        series: Series::Series1,
        place: 14,
    };

    const STAGE_16: Stage = Stage {
        series: Series::Series1,
        place: 15,
    };

    const STAGE_17: Stage = Stage {
        series: Series::Series1,
        place: 16,
    };

    const STAGE_18: Stage = Stage {
        series: Series::Series1,
        place: 17,
    };

    const STAGE_19: Stage = Stage {
        series: Series::Series1,
        place: 18,
    };

    const STAGE_20: Stage = Stage {
        series: Series::Series1,
        place: 19,
    };

    const STAGE_21: Stage = Stage {
        series: Series::Series1,
        place: 20,
    };

    const STAGE_22: Stage = Stage {
        series: Series::Series1,
        place: 21,
    };

    const STAGE_23: Stage = Stage {
        series: Series::Series1,
        place: 22,
    };

    const STAGE_24: Stage = Stage {
        series: Series::Series2,
        place: 0,
    };

    const STAGE_25: Stage = Stage {
        series: Series::Series2,
        place: 1,
    };

    const STAGE_26: Stage = Stage {
        series: Series::Series2,
        place: 2,
    };

    const STAGE_27: Stage = Stage {
        series: Series::Series2,
        place: 3,
    };

    const STAGE_28: Stage = Stage {
        series: Series::Series2,
        place: 4,
    };

    const STAGE_29: Stage = Stage {
        series: Series::Series2,
        place: 5,
    };

    const STAGE_30: Stage = Stage {
        series: Series::Series2,
        place: 6,
    };

    const STAGE_31: Stage = Stage {
        series: Series::Series2,
        place: 7,
    };

    const STAGE_32: Stage = Stage {
        series: Series::Series2,
        place: 8,
    };

    const STAGE_33: Stage = Stage {
        series: Series::Series2,
        place: 9,
    };

    const STAGE_34: Stage = Stage {
        series: Series::Series2,
        place: 10,
    };

    const STAGE_35: Stage = Stage {
        series: Series::Series2,
        place: 11,
    };

    const STAGE_36: Stage = Stage {
        series: Series::Series2,
        place: 12,
    };

    const STAGE_37: Stage = Stage {
        series: Series::Series2,
        place: 13,
    };

    const STAGE_38: Stage = Stage {
        series: Series::Series2,
        place: 14,
    };

    const STAGE_39: Stage = Stage {
        series: Series::Series2,
        place: 15,
    };

    const STAGE_40: Stage = Stage {
        series: Series::Series2,
        place: 16,
    };

    const STAGE_41: Stage = Stage {
        series: Series::Series2,
        place: 17,
    };

    const STAGE_42: Stage = Stage {
        series: Series::Series2,
        place: 18,
    };

    const STAGE_43: Stage = Stage {
        series: Series::Series2,
        place: 19,
    };

    const STAGE_44: Stage = Stage {
        series: Series::Series2,
        place: 20,
    };

    const STAGE_45: Stage = Stage {
        series: Series::Series2,
        place: 21,
    };

    const STAGE_46: Stage = Stage {
        series: Series::Series2,
        place: 22,
    };

    const STAGE_47: Stage = Stage {
        series: Series::Series3,
        place: 0,
    };

    const STAGE_48: Stage = Stage {
        series: Series::Series3,
        place: 1,
    };

    const STAGE_49: Stage = Stage {
        series: Series::Series3,
        place: 2,
    };

    const STAGE_50: Stage = Stage {
        series: Series::Series3,
        place: 3,
    };

    const STAGE_51: Stage = Stage {
        series: Series::Series3,
        place: 4,
    };

    const STAGE_52: Stage = Stage {
        series: Series::Series3,
        place: 5,
    };

    const STAGE_53: Stage = Stage {
        series: Series::Series3,
        place: 6,
    };

    const STAGE_54: Stage = Stage {
        series: Series::Series3,
        place: 7,
    };

    const STAGE_55: Stage = Stage {
        series: Series::Series3,
        place: 8,
    };

    const STAGE_56: Stage = Stage {
        series: Series::Series3,
        place: 9,
    };

    const STAGE_57: Stage = Stage {
        series: Series::Series3,
        place: 10,
    };

    const STAGE_58: Stage = Stage {
        series: Series::Series3,
        place: 11,
    };

    const STAGE_59: Stage = Stage {
        series: Series::Series3,
        place: 12,
    };

    const STAGE_60: Stage = Stage {
        series: Series::Series3,
        place: 13,
    };

    const STAGE_61: Stage = Stage {
        series: Series::Series3,
        place: 14,
    };

    const STAGE_62: Stage = Stage {
        series: Series::Series3,
        place: 15,
    };

    const STAGE_63: Stage = Stage {
        series: Series::Series3,
        place: 16,
    };

    const STAGE_64: Stage = Stage {
        series: Series::Series3,
        place: 17,
    };

    const STAGE_65: Stage = Stage {
        series: Series::Series3,
        place: 18,
    };

    const STAGE_66: Stage = Stage {
        series: Series::Series3,
        place: 19,
    };

    const STAGE_67: Stage = Stage {
        series: Series::Series3,
        place: 20,
    };

    const STAGE_68: Stage = Stage {
        series: Series::Series3,
        place: 21,
    };

    const STAGE_69: Stage = Stage {
        series: Series::Series3,
        place: 22,
    };

    const STAGE_70: Stage = Stage {
        series: Series::Series4,
        place: 0,
    };

    const STAGE_71: Stage = Stage {
        series: Series::Series4,
        place: 1,
    };

    const STAGE_72: Stage = Stage {
        series: Series::Series4,
        place: 2,
    };

    const STAGE_73: Stage = Stage {
        series: Series::Series4,
        place: 3,
    };

    const STAGE_74: Stage = Stage {
        series: Series::Series4,
        place: 4,
    };

    const STAGE_75: Stage = Stage {
        series: Series::Series4,
        place: 5,
    };

    const STAGE_76: Stage = Stage {
        series: Series::Series4,
        place: 6,
    };

    const STAGE_77: Stage = Stage {
        series: Series::Series4,
        place: 7,
    };

    const STAGE_78: Stage = Stage {
        series: Series::Series4,
        place: 8,
    };

    const STAGE_79: Stage = Stage {
        series: Series::Series4,
        place: 9,
    };

    const STAGE_80: Stage = Stage {
        series: Series::Series4,
        place: 10,
    };

    const STAGE_81: Stage = Stage {
        series: Series::Series4,
        place: 11,
    };

    const STAGE_82: Stage = Stage {
        series: Series::Series4,
        place: 12,
    };

    const STAGE_83: Stage = Stage {
        series: Series::Series4,
        place: 13,
    };

    const STAGE_84: Stage = Stage {
        series: Series::Series4,
        place: 14,
    };

    const STAGE_85: Stage = Stage {
        series: Series::Series4,
        place: 15,
    };

    const STAGE_86: Stage = Stage {
        series: Series::Series4,
        place: 16,
    };

    const STAGE_87: Stage = Stage {
        series: Series::Series4,
        place: 17,
    };

    const STAGE_88: Stage = Stage {
        series: Series::Series4,
        place: 18,
    };

    const STAGE_89: Stage = Stage {
        series: Series::Series4,
        place: 19,
    };

    const STAGE_90: Stage = Stage {
        series: Series::Series4,
        place: 20,
    };

    const STAGE_91: Stage = Stage {
        series: Series::Series4,
        place: 21,
    };

    const STAGE_92: Stage = Stage {
        series: Series::Series4,
        place: 22,
    };

    const STAGE_93: Stage = Stage {
        series: Series::Series5,
        place: 0,
    };

    const STAGE_94: Stage = Stage {
        series: Series::Series5,
        place: 1,
    };

    const STAGE_95: Stage = Stage {
        series: Series::Series5,
        place: 2,
    };

    const STAGE_96: Stage = Stage {
        series: Series::Series5,
        place: 3,
    };

    const STAGE_97: Stage = Stage {
        series: Series::Series5,
        place: 4,
    };

    const STAGE_98: Stage = Stage {
        series: Series::Series5,
        place: 5,
    };

    const STAGE_99: Stage = Stage {
        series: Series::Series5,
        place: 6,
    };

    const STAGE_100: Stage = Stage {
        series: Series::Series5,
        place: 7,
    };

    const STAGE_101: Stage = Stage {
        series: Series::Series5,
        place: 8,
    };

    const STAGE_102: Stage = Stage {
        series: Series::Series5,
        place: 9,
    };

    const STAGE_103: Stage = Stage {
        series: Series::Series5,
        place: 10,
    };

    const STAGE_104: Stage = Stage {
        series: Series::Series5,
        place: 11,
    };

    const STAGE_105: Stage = Stage {
        series: Series::Series5,
        place: 12,
    };

    const STAGE_106: Stage = Stage {
        series: Series::Series5,
        place: 13,
    };

    const STAGE_107: Stage = Stage {
        series: Series::Series5,
        place: 14,
    };

    const STAGE_108: Stage = Stage {
        series: Series::Series5,
        place: 15,
    };

    const STAGE_109: Stage = Stage {
        series: Series::Series5,
        place: 16,
    };

    const STAGE_110: Stage = Stage {
        series: Series::Series5,
        place: 17,
    };

    const STAGE_111: Stage = Stage {
        series: Series::Series5,
        place: 18,
    };

    const STAGE_112: Stage = Stage {
        series: Series::Series5,
        place: 19,
    };

    const STAGE_113: Stage = Stage {
        series: Series::Series5,
        place: 20,
    };

    const STAGE_114: Stage = Stage {
        series: Series::Series5,
        place: 21,
    };

    const STAGE_115: Stage = Stage {
        series: Series::Series5,
        place: 22,
    };

    const STAGE_116: Stage = Stage {
        series: Series::Series6,
        place: 0,
    };

    const STAGE_117: Stage = Stage {
        series: Series::Series6,
        place: 1,
    };

    const STAGE_118: Stage = Stage {
        series: Series::Series6,
        place: 2,
    };

    const STAGE_119: Stage = Stage {
        series: Series::Series6,
        place: 3,
    };

    const STAGE_120: Stage = Stage {
        series: Series::Series6,
        place: 4,
    };

    const STAGE_121: Stage = Stage {
        series: Series::Series6,
        place: 5,
    };

    const STAGE_122: Stage = Stage {
        series: Series::Series6,
        place: 6,
    };

    const STAGE_123: Stage = Stage {
        series: Series::Series6,
        place: 7,
    };

    const STAGE_124: Stage = Stage {
        series: Series::Series6,
        place: 8,
    };

    const STAGE_125: Stage = Stage {
        series: Series::Series6,
        place: 9,
    };

    const STAGE_126: Stage = Stage {
        series: Series::Series6,
        place: 10,
    };

    const STAGE_127: Stage = Stage {
        series: Series::Series6,
        place: 11,
    };

    const STAGE_128: Stage = Stage {
        series: Series::Series6,
        place: 12,
    };

    const STAGE_129: Stage = Stage {
        series: Series::Series6,
        place: 13,
    };

    const STAGE_130: Stage = Stage {
        series: Series::Series6,
        place: 14,
    };

    const STAGE_131: Stage = Stage {
        series: Series::Series6,
        place: 15,
    };

    const STAGE_132: Stage = Stage {
        series: Series::Series6,
        place: 16,
    };

    const STAGE_133: Stage = Stage {
        series: Series::Series6,
        place: 17,
    };

    const STAGE_134: Stage = Stage {
        series: Series::Series6,
        place: 18,
    };

    const STAGE_135: Stage = Stage {
        series: Series::Series6,
        place: 19,
    };

    const STAGE_136: Stage = Stage {
        series: Series::Series6,
        place: 20,
    };

    const STAGE_137: Stage = Stage {
        series: Series::Series6,
        place: 21,
    };

    const STAGE_138: Stage = Stage {
        series: Series::Series6,
        place: 22,
    };
}

static PLANNED_1: Form = Form::Then(
    &Form::Rule(Rule::GENERICS),
    &Form::Then(
        &Form::Rule(Rule::WHERE_CLAUSE),
        &Form::Then(
            &Form::Inside(Delimiter::Brace, &Form::Rule(Rule::VARIANTS)),
            &Form::Empty,
        ),
    ),
);

static PLANNED_2: Form = Form::Then(
    &Form::Token(Token::Name),
    &Form::Then(
        &Form::Rule(Rule::GENERICS),
        &Form::Then(
            &Form::Rule(Rule::WHERE_CLAUSE),
            &Form::Then(&Form::Rule(Rule::FIELDS_NAMED), &Form::Empty),
        ),
    ),
);

static PLANNED_3: Form = Form::Then(
    &Form::Mark(Mark::Eq),
    &Form::Then(
        &Form::Rule(Rule::TYPE),
        &Form::When(
            Look::Word(Word::Where),
            &Form::Then(
                &Form::Token(Token::Word(Word::Where)),
                &Form::Rule(Rule::PREDICATES),
            ),
            &Form::Empty,
        ),
    ),
);

static PLANNED_4: Form = Form::Then(
    &Form::Then(
        &Form::Token(Token::Word(Word::Where)),
        &Form::Rule(Rule::PREDICATES),
    ),
    &Form::When(
        Look::Mark(Mark::Eq),
        &Form::Then(&Form::Mark(Mark::Eq), &Form::Rule(Rule::TYPE)),
        &Form::Empty,
    ),
);

static PLANNED_5: Form = Form::Then(
    &Form::When(
        Look::Word(Word::Where),
        &Form::Part(Part::PLANNED_4),
        &Form::When(
            Look::Mark(Mark::Eq),
            &Form::Part(Part::PLANNED_3),
            &Form::Empty,
        ),
    ),
    &Form::Then(&Form::Mark(Mark::Semi), &Form::Empty),
);

static PLANNED_6: Form = Form::Then(
    &Form::Inside(
        Delimiter::Brace,
        &Form::Then(
            &Form::Rule(Rule::INNER_ATTRIBUTES),
            &Form::Rule(Rule::ITEMS),
        ),
    ),
    &Form::Empty,
);

static PLANNED_7: Form = Form::Then(
    &Form::Rule(Rule::WHERE_CLAUSE),
    &Form::Then(
        &Form::Inside(
            Delimiter::Brace,
            &Form::Then(
                &Form::Rule(Rule::INNER_ATTRIBUTES),
                &Form::Rule(Rule::TRAIT_ITEMS),
            ),
        ),
        &Form::Empty,
    ),
);

static PLANNED_8: Form = Form::Then(
    &Form::Mark(Mark::Eq),
    &Form::Then(
        &Form::Rule(Rule::ALIAS_BOUNDS),
        &Form::Then(
            &Form::Rule(Rule::WHERE_CLAUSE),
            &Form::Then(&Form::Mark(Mark::Semi), &Form::Empty),
        ),
    ),
);

static PLANNED_9: Form = Form::Then(
    &Form::Token(Token::Name),
    &Form::Then(
        &Form::Rule(Rule::GENERICS),
        &Form::When(
            Look::Mark(Mark::Eq),
            &Form::Part(Part::PLANNED_8),
            &Form::Then(
                &Form::Fading(Fading::Supertraits),
                &Form::Part(Part::PLANNED_7),
            ),
        ),
    ),
);

static PLANNED_10: Form = Form::Then(
    &Form::Rule(Rule::WHERE_CLAUSE),
    &Form::Then(
        &Form::Inside(
            Delimiter::Brace,
            &Form::Then(
                &Form::Rule(Rule::INNER_ATTRIBUTES),
                &Form::Rule(Rule::TRAIT_ITEMS),
            ),
        ),
        &Form::Empty,
    ),
);

static PLANNED_11: Form = Form::Then(
    &Form::Token(Token::Word(Word::Trait)),
    &Form::Then(
        &Form::Token(Token::Name),
        &Form::Then(
            &Form::Rule(Rule::GENERICS),
            &Form::Then(
                &Form::Fading(Fading::Supertraits),
                &Form::Part(Part::PLANNED_10),
            ),
        ),
    ),
);

static PLANNED_12: Form = Form::Then(
    &Form::Token(Token::Name),
    &Form::Then(
        &Form::When(
            Look::Group(Delimiter::Paren),
            &Form::Raw(Delimiter::Paren),
            &Form::Empty,
        ),
        &Form::Then(&Form::Raw(Delimiter::Brace), &Form::Empty),
    ),
);

static PLANNED_13: Form = Form::Then(
    &Form::When(
        Look::Word(Word::As),
        &Form::Then(
            &Form::Token(Token::Word(Word::As)),
            &Form::Token(Token::NameOrUnderscore),
        ),
        &Form::Empty,
    ),
    &Form::Then(&Form::Mark(Mark::Semi), &Form::Empty),
);

static PLANNED_14: Form = Form::Then(
    &Form::Rule(Rule::TYPE),
    &Form::Then(
        &Form::Rule(Rule::FOR_SELF_TYPE),
        &Form::Then(&Form::Rule(Rule::IMPL_BODY), &Form::Empty),
    ),
);

static PLANNED_15: Form = Form::Then(
    &Form::Rule(Rule::TYPE),
    &Form::Then(
        &Form::When(
            Look::Word(Word::For),
            &Form::Rule(Rule::FOR_SELF_TYPE),
            &Form::Empty,
        ),
        &Form::Then(&Form::Rule(Rule::IMPL_BODY), &Form::Empty),
    ),
);

static PLANNED_16: Form = Form::When(
    Look::Mark(Mark::Not),
    &Form::Then(
        &Form::Mark(Mark::Not),
        &Form::When(
            Look::Group(Delimiter::Brace),
            &Form::Then(&Form::Rule(Rule::IMPL_BODY), &Form::Empty),
            &Form::Part(Part::PLANNED_14),
        ),
    ),
    &Form::Part(Part::PLANNED_15),
);

static PLANNED_17: Form = Form::Then(
    &Form::Rule(Rule::WHERE_CLAUSE),
    &Form::Then(
        &Form::Inside(
            Delimiter::Brace,
            &Form::Then(
                &Form::Rule(Rule::INNER_ATTRIBUTES),
                &Form::Rule(Rule::TRAIT_ITEMS),
            ),
        ),
        &Form::Empty,
    ),
);

static PLANNED_18: Form = Form::Then(
    &Form::When(
        Look::Word(Word::Where),
        &Form::Then(
            &Form::Token(Token::Word(Word::Where)),
            &Form::Rule(Rule::PREDICATES),
        ),
        &Form::Empty,
    ),
    &Form::Then(&Form::Mark(Mark::Semi), &Form::Empty),
);

static PLANNED_19: Form = Form::Then(
    &Form::Rule(Rule::TYPE),
    &Form::Then(
        &Form::When(
            Look::Mark(Mark::Eq),
            &Form::Then(&Form::Mark(Mark::Eq), &Form::Rule(Rule::WHOLE_EXPRESSION)),
            &Form::Empty,
        ),
        &Form::Part(Part::PLANNED_18),
    ),
);

static PLANNED_20: Form = Form::Then(
    &Form::When(
        Look::Word(Word::Const),
        &Form::Token(Token::Word(Word::Const)),
        &Form::Empty,
    ),
    &Form::Then(&Form::Rule(Rule::BARE_TRAIT), &Form::Empty),
);

static PLANNED_21: Form = Form::Then(
    &Form::Rule(Rule::TYPE),
    &Form::Then(
        &Form::When(
            Look::Word(Word::Const),
            &Form::Token(Token::Word(Word::Const)),
            &Form::Empty,
        ),
        &Form::Then(&Form::Rule(Rule::BARE_TRAIT), &Form::Empty),
    ),
);

static PLANNED_22: Form = Form::When(
    Look::InRestriction,
    &Form::Then(
        &Form::Inside(Delimiter::Paren, &Form::Rule(Rule::RESTRICTION)),
        &Form::Part(Part::PLANNED_20),
    ),
    &Form::When(
        Look::LoneWord,
        &Form::Part(Part::PLANNED_21),
        &Form::Never(Fault::Unexpected),
    ),
);

static PLANNED_23: Form = Form::Then(
    &Form::When(
        Look::Word(Word::Const),
        &Form::Token(Token::Word(Word::Const)),
        &Form::Empty,
    ),
    &Form::Then(&Form::Rule(Rule::BARE_TRAIT), &Form::Empty),
);

static PLANNED_24: Form = Form::Then(
    &Form::When(
        Look::Or(&Look::Name, &Look::Word(Word::Try)),
        &Form::Token(Token::NameOrTry),
        &Form::Empty,
    ),
    &Form::Then(&Form::Rule(Rule::MACRO_END), &Form::Empty),
);

static PLANNED_25: Form = Form::When(
    Look::Mark(Mark::Eq),
    &Form::Then(&Form::Mark(Mark::Eq), &Form::Rule(Rule::TYPE)),
    &Form::Empty,
);

static PLANNED_26: Form = Form::Then(
    &Form::Fading(Fading::TypeBounds),
    &Form::Then(
        &Form::Part(Part::PLANNED_25),
        &Form::Then(
            &Form::Rule(Rule::WHERE_CLAUSE),
            &Form::Then(&Form::Mark(Mark::Semi), &Form::Empty),
        ),
    ),
);

static PLANNED_27: Form = Form::Then(
    &Form::Rule(Rule::SIGNATURE_REST),
    &Form::When(
        Look::Mark(Mark::Semi),
        &Form::Then(&Form::Mark(Mark::Semi), &Form::Empty),
        &Form::Then(&Form::Rule(Rule::BODY), &Form::Empty),
    ),
);

static PLANNED_28: Form = Form::Then(
    &Form::Rule(Rule::UNSAFE_ONLY),
    &Form::Then(
        &Form::When(
            Look::Word(Word::Extern),
            &Form::Rule(Rule::ABI),
            &Form::Empty,
        ),
        &Form::Part(Part::PLANNED_27),
    ),
);

static PLANNED_29: Form = Form::Then(
    &Form::When(
        Look::Word(Word::Where),
        &Form::Then(
            &Form::Token(Token::Word(Word::Where)),
            &Form::Rule(Rule::PREDICATES),
        ),
        &Form::Empty,
    ),
    &Form::Then(&Form::Mark(Mark::Semi), &Form::Empty),
);

static PLANNED_30: Form = Form::Then(
    &Form::Rule(Rule::TYPE),
    &Form::Then(
        &Form::When(
            Look::Mark(Mark::Eq),
            &Form::Then(&Form::Mark(Mark::Eq), &Form::Rule(Rule::WHOLE_EXPRESSION)),
            &Form::Empty,
        ),
        &Form::Part(Part::PLANNED_29),
    ),
);

static PLANNED_31: Form = Form::Then(
    &Form::Token(Token::NameOrUnderscore),
    &Form::Then(
        &Form::When(
            Look::Mark(Mark::Lt),
            &Form::Ordered(List::Parameters),
            &Form::Empty,
        ),
        &Form::Then(&Form::Mark(Mark::Colon), &Form::Part(Part::PLANNED_30)),
    ),
);

static PLANNED_32: Form = Form::When(
    Look::Or(
        &Look::Word(Word::Async),
        &Look::Or(
            &Look::Word(Word::Unsafe),
            &Look::Or(&Look::Word(Word::Extern), &Look::Word(Word::Fn)),
        ),
    ),
    &Form::Then(
        &Form::When(
            Look::Word(Word::Async),
            &Form::Token(Token::Word(Word::Async)),
            &Form::Empty,
        ),
        &Form::Part(Part::PLANNED_28),
    ),
    &Form::Part(Part::PLANNED_31),
);

static PLANNED_33: Form = Form::Then(
    &Form::Rule(Rule::SIGNATURE),
    &Form::When(
        Look::Mark(Mark::Semi),
        &Form::Then(&Form::Mark(Mark::Semi), &Form::Empty),
        &Form::Then(&Form::Rule(Rule::BODY), &Form::Empty),
    ),
);

static PLANNED_34: Form = Form::Then(
    &Form::Token(Token::Word(Word::Type)),
    &Form::Then(
        &Form::Token(Token::Name),
        &Form::Then(&Form::Rule(Rule::GENERICS), &Form::Part(Part::PLANNED_26)),
    ),
);

static PLANNED_35: Form = Form::When(
    Look::Word(Word::Type),
    &Form::Part(Part::PLANNED_34),
    &Form::When(
        Look::Word(Word::Const),
        &Form::Then(
            &Form::Token(Token::Word(Word::Const)),
            &Form::Part(Part::PLANNED_32),
        ),
        &Form::Part(Part::PLANNED_33),
    ),
);

static PLANNED_36: Form = Form::When(
    Look::Mark(Mark::Eq),
    &Form::Then(&Form::Mark(Mark::Eq), &Form::Rule(Rule::TYPE)),
    &Form::Empty,
);

static PLANNED_37: Form = Form::Then(
    &Form::Fading(Fading::TypeBounds),
    &Form::Then(
        &Form::Part(Part::PLANNED_36),
        &Form::Then(
            &Form::Rule(Rule::WHERE_CLAUSE),
            &Form::Then(&Form::Mark(Mark::Semi), &Form::Empty),
        ),
    ),
);

static PLANNED_38: Form = Form::Then(
    &Form::Rule(Rule::SIGNATURE_REST),
    &Form::When(
        Look::Mark(Mark::Semi),
        &Form::Then(&Form::Mark(Mark::Semi), &Form::Empty),
        &Form::Then(&Form::Rule(Rule::BODY), &Form::Empty),
    ),
);

static PLANNED_39: Form = Form::Then(
    &Form::Rule(Rule::UNSAFE_ONLY),
    &Form::Then(
        &Form::When(
            Look::Word(Word::Extern),
            &Form::Rule(Rule::ABI),
            &Form::Empty,
        ),
        &Form::Part(Part::PLANNED_38),
    ),
);

static PLANNED_40: Form = Form::Then(
    &Form::When(
        Look::Word(Word::Where),
        &Form::Then(
            &Form::Token(Token::Word(Word::Where)),
            &Form::Rule(Rule::PREDICATES),
        ),
        &Form::Empty,
    ),
    &Form::Then(&Form::Mark(Mark::Semi), &Form::Empty),
);

static PLANNED_41: Form = Form::Then(
    &Form::Rule(Rule::TYPE),
    &Form::Then(
        &Form::When(
            Look::Mark(Mark::Eq),
            &Form::Then(&Form::Mark(Mark::Eq), &Form::Rule(Rule::WHOLE_EXPRESSION)),
            &Form::Empty,
        ),
        &Form::Part(Part::PLANNED_40),
    ),
);

static PLANNED_42: Form = Form::Then(
    &Form::Token(Token::NameOrUnderscore),
    &Form::Then(
        &Form::When(
            Look::Mark(Mark::Lt),
            &Form::Ordered(List::Parameters),
            &Form::Empty,
        ),
        &Form::Then(&Form::Mark(Mark::Colon), &Form::Part(Part::PLANNED_41)),
    ),
);

static PLANNED_43: Form = Form::When(
    Look::Or(
        &Look::Word(Word::Async),
        &Look::Or(
            &Look::Word(Word::Unsafe),
            &Look::Or(&Look::Word(Word::Extern), &Look::Word(Word::Fn)),
        ),
    ),
    &Form::Then(
        &Form::When(
            Look::Word(Word::Async),
            &Form::Token(Token::Word(Word::Async)),
            &Form::Empty,
        ),
        &Form::Part(Part::PLANNED_39),
    ),
    &Form::Part(Part::PLANNED_42),
);

static PLANNED_44: Form = Form::Then(
    &Form::Rule(Rule::SIGNATURE),
    &Form::When(
        Look::Mark(Mark::Semi),
        &Form::Then(&Form::Mark(Mark::Semi), &Form::Empty),
        &Form::Then(&Form::Rule(Rule::BODY), &Form::Empty),
    ),
);

static PLANNED_45: Form = Form::Then(
    &Form::Token(Token::Word(Word::Type)),
    &Form::Then(
        &Form::Token(Token::Name),
        &Form::Then(&Form::Rule(Rule::GENERICS), &Form::Part(Part::PLANNED_37)),
    ),
);

static PLANNED_46: Form = Form::Then(
    &Form::When(
        Look::Word(Word::Where),
        &Form::Then(
            &Form::Token(Token::Word(Word::Where)),
            &Form::Rule(Rule::PREDICATES),
        ),
        &Form::Empty,
    ),
    &Form::Then(&Form::Mark(Mark::Semi), &Form::Empty),
);

static PLANNED_47: Form = Form::Then(
    &Form::Rule(Rule::TYPE),
    &Form::Then(
        &Form::When(
            Look::Mark(Mark::Eq),
            &Form::Then(&Form::Mark(Mark::Eq), &Form::Rule(Rule::WHOLE_EXPRESSION)),
            &Form::Empty,
        ),
        &Form::Part(Part::PLANNED_46),
    ),
);

static PLANNED_48: Form = Form::Then(
    &Form::Then(
        &Form::Token(Token::Word(Word::Where)),
        &Form::Rule(Rule::PREDICATES),
    ),
    &Form::Then(&Form::Mark(Mark::Semi), &Form::Empty),
);

static PLANNED_49: Form = Form::Then(
    &Form::Rule(Rule::TYPE),
    &Form::Then(
        &Form::When(
            Look::Mark(Mark::Eq),
            &Form::Then(&Form::Mark(Mark::Eq), &Form::Rule(Rule::WHOLE_EXPRESSION)),
            &Form::Empty,
        ),
        &Form::Part(Part::PLANNED_48),
    ),
);

static PLANNED_50: Form = Form::When(
    Look::Mark(Mark::Lt),
    &Form::Then(
        &Form::Ordered(List::Parameters),
        &Form::Then(&Form::Mark(Mark::Colon), &Form::Part(Part::PLANNED_47)),
    ),
    &Form::Then(&Form::Mark(Mark::Colon), &Form::Part(Part::PLANNED_49)),
);

static PLANNED_51: Form = Form::Then(
    &Form::Token(Token::Word(Word::Default)),
    &Form::When(
        Look::Word(Word::Type),
        &Form::Part(Part::PLANNED_45),
        &Form::When(
            Look::Word(Word::Const),
            &Form::Then(
                &Form::Token(Token::Word(Word::Const)),
                &Form::Part(Part::PLANNED_43),
            ),
            &Form::Part(Part::PLANNED_44),
        ),
    ),
);

static PLANNED_52: Form = Form::When(
    Look::Mark(Mark::Eq),
    &Form::Then(&Form::Mark(Mark::Eq), &Form::Rule(Rule::TYPE)),
    &Form::Empty,
);

static PLANNED_53: Form = Form::Then(
    &Form::Fading(Fading::TypeBounds),
    &Form::Then(
        &Form::Part(Part::PLANNED_52),
        &Form::Then(
            &Form::Rule(Rule::WHERE_CLAUSE),
            &Form::Then(&Form::Mark(Mark::Semi), &Form::Empty),
        ),
    ),
);

static PLANNED_54: Form = Form::Then(
    &Form::Rule(Rule::SIGNATURE_REST),
    &Form::When(
        Look::Mark(Mark::Semi),
        &Form::Then(&Form::Mark(Mark::Semi), &Form::Empty),
        &Form::Then(&Form::Rule(Rule::BODY), &Form::Empty),
    ),
);

static PLANNED_55: Form = Form::Then(
    &Form::Rule(Rule::UNSAFE_ONLY),
    &Form::Then(
        &Form::When(
            Look::Word(Word::Extern),
            &Form::Rule(Rule::ABI),
            &Form::Empty,
        ),
        &Form::Part(Part::PLANNED_54),
    ),
);

static PLANNED_56: Form = Form::Then(
    &Form::When(
        Look::Word(Word::Where),
        &Form::Then(
            &Form::Token(Token::Word(Word::Where)),
            &Form::Rule(Rule::PREDICATES),
        ),
        &Form::Empty,
    ),
    &Form::Then(&Form::Mark(Mark::Semi), &Form::Empty),
);

static PLANNED_57: Form = Form::Then(
    &Form::Rule(Rule::TYPE),
    &Form::Then(
        &Form::When(
            Look::Mark(Mark::Eq),
            &Form::Then(&Form::Mark(Mark::Eq), &Form::Rule(Rule::WHOLE_EXPRESSION)),
            &Form::Empty,
        ),
        &Form::Part(Part::PLANNED_56),
    ),
);

static PLANNED_58: Form = Form::Then(
    &Form::Token(Token::NameOrUnderscore),
    &Form::Then(
        &Form::When(
            Look::Mark(Mark::Lt),
            &Form::Ordered(List::Parameters),
            &Form::Empty,
        ),
        &Form::Then(&Form::Mark(Mark::Colon), &Form::Part(Part::PLANNED_57)),
    ),
);

static PLANNED_59: Form = Form::When(
    Look::Or(
        &Look::Word(Word::Async),
        &Look::Or(
            &Look::Word(Word::Unsafe),
            &Look::Or(&Look::Word(Word::Extern), &Look::Word(Word::Fn)),
        ),
    ),
    &Form::Then(
        &Form::When(
            Look::Word(Word::Async),
            &Form::Token(Token::Word(Word::Async)),
            &Form::Empty,
        ),
        &Form::Part(Part::PLANNED_55),
    ),
    &Form::Part(Part::PLANNED_58),
);

static PLANNED_60: Form = Form::Then(
    &Form::Rule(Rule::SIGNATURE),
    &Form::When(
        Look::Mark(Mark::Semi),
        &Form::Then(&Form::Mark(Mark::Semi), &Form::Empty),
        &Form::Then(&Form::Rule(Rule::BODY), &Form::Empty),
    ),
);

static PLANNED_61: Form = Form::Then(
    &Form::Token(Token::Word(Word::Type)),
    &Form::Then(
        &Form::Token(Token::Name),
        &Form::Then(&Form::Rule(Rule::GENERICS), &Form::Part(Part::PLANNED_53)),
    ),
);

static PLANNED_62: Form = Form::When(
    Look::Mark(Mark::Eq),
    &Form::Then(&Form::Mark(Mark::Eq), &Form::Rule(Rule::TYPE)),
    &Form::Empty,
);

static PLANNED_63: Form = Form::Then(
    &Form::Fading(Fading::TypeBounds),
    &Form::Then(
        &Form::Part(Part::PLANNED_62),
        &Form::Then(
            &Form::Rule(Rule::WHERE_CLAUSE),
            &Form::Then(&Form::Mark(Mark::Semi), &Form::Empty),
        ),
    ),
);

static PLANNED_64: Form = Form::Then(
    &Form::Rule(Rule::SIGNATURE_REST),
    &Form::When(
        Look::Mark(Mark::Semi),
        &Form::Then(&Form::Mark(Mark::Semi), &Form::Empty),
        &Form::Then(&Form::Rule(Rule::BODY), &Form::Empty),
    ),
);

static PLANNED_65: Form = Form::Then(
    &Form::Rule(Rule::UNSAFE_ONLY),
    &Form::Then(
        &Form::When(
            Look::Word(Word::Extern),
            &Form::Rule(Rule::ABI),
            &Form::Empty,
        ),
        &Form::Part(Part::PLANNED_64),
    ),
);

static PLANNED_66: Form = Form::Then(
    &Form::Rule(Rule::MODULE_PATH),
    &Form::Then(
        &Form::When(
            Look::Bang,
            &Form::Mark(Mark::Not),
            &Form::Never(Fault::Unexpected),
        ),
        &Form::Then(&Form::Rule(Rule::MACRO_END), &Form::Empty),
    ),
);

static PLANNED_67: Form = Form::Then(
    &Form::Rule(Rule::SIGNATURE),
    &Form::When(
        Look::Mark(Mark::Semi),
        &Form::Then(&Form::Mark(Mark::Semi), &Form::Empty),
        &Form::Then(&Form::Rule(Rule::BODY), &Form::Empty),
    ),
);

static PLANNED_68: Form = Form::Then(
    &Form::When(
        Look::Word(Word::Where),
        &Form::Then(
            &Form::Token(Token::Word(Word::Where)),
            &Form::Rule(Rule::PREDICATES),
        ),
        &Form::Empty,
    ),
    &Form::Then(&Form::Mark(Mark::Semi), &Form::Empty),
);

static PLANNED_69: Form = Form::Then(
    &Form::Rule(Rule::TYPE_BOUNDS),
    &Form::Then(
        &Form::When(
            Look::Mark(Mark::Eq),
            &Form::Then(&Form::Mark(Mark::Eq), &Form::Rule(Rule::TYPE)),
            &Form::Empty,
        ),
        &Form::Part(Part::PLANNED_68),
    ),
);

static PLANNED_70: Form = Form::Then(
    &Form::When(
        Look::Word(Word::Where),
        &Form::Then(
            &Form::Token(Token::Word(Word::Where)),
            &Form::Rule(Rule::PREDICATES),
        ),
        &Form::Empty,
    ),
    &Form::Then(&Form::Mark(Mark::Semi), &Form::Empty),
);

static PLANNED_71: Form = Form::Then(
    &Form::Rule(Rule::MODULE_PATH),
    &Form::Then(
        &Form::When(
            Look::Bang,
            &Form::Mark(Mark::Not),
            &Form::Never(Fault::Unexpected),
        ),
        &Form::Then(&Form::Rule(Rule::MACRO_END), &Form::Empty),
    ),
);

static PLANNED_72: Form = Form::Then(
    &Form::When(
        Look::Word(Word::Where),
        &Form::Then(
            &Form::Token(Token::Word(Word::Where)),
            &Form::Rule(Rule::PREDICATES),
        ),
        &Form::Empty,
    ),
    &Form::Then(&Form::Mark(Mark::Semi), &Form::Empty),
);

static PLANNED_73: Form = Form::Then(
    &Form::Rule(Rule::MODULE_PATH),
    &Form::Then(
        &Form::When(
            Look::Bang,
            &Form::Mark(Mark::Not),
            &Form::Never(Fault::Unexpected),
        ),
        &Form::Then(&Form::Rule(Rule::MACRO_END), &Form::Empty),
    ),
);

static PLANNED_74: Form = Form::When(
    Look::Group(Delimiter::Brace),
    &Form::Then(
        &Form::Raw(Delimiter::Brace),
        &Form::When(
            Look::PostfixMark,
            &Form::Never(Fault::Unexpected),
            &Form::Then(&Form::Rule(Rule::STATEMENT_END), &Form::Empty),
        ),
    ),
    &Form::Never(Fault::Unexpected),
);

static PLANNED_75: Form = Form::Then(
    &Form::When(
        Look::Or(&Look::Name, &Look::Word(Word::Try)),
        &Form::Token(Token::NameOrTry),
        &Form::Empty,
    ),
    &Form::Then(
        &Form::Rule(Rule::MACRO_END),
        &Form::When(
            Look::PostfixMark,
            &Form::Empty,
            &Form::Never(Fault::Unexpected),
        ),
    ),
);

static PLANNED_76: Form = Form::When(
    Look::Group(Delimiter::Brace),
    &Form::Then(
        &Form::Raw(Delimiter::Brace),
        &Form::When(
            Look::PostfixMark,
            &Form::Empty,
            &Form::Then(&Form::Rule(Rule::STATEMENT_END), &Form::Empty),
        ),
    ),
    &Form::Part(Part::PLANNED_75),
);

static PLANNED_77: Form = Form::Then(
    &Form::Rule(Rule::MODULE_PATH),
    &Form::Then(
        &Form::When(
            Look::Bang,
            &Form::Mark(Mark::Not),
            &Form::Never(Fault::Unexpected),
        ),
        &Form::Part(Part::PLANNED_74),
    ),
);

static PLANNED_78: Form = Form::Then(
    &Form::Rule(Rule::GENERICS),
    &Form::Then(
        &Form::Rule(Rule::WHERE_CLAUSE),
        &Form::Then(
            &Form::Inside(Delimiter::Brace, &Form::Rule(Rule::VARIANTS)),
            &Form::Empty,
        ),
    ),
);

static PLANNED_79: Form = Form::Then(
    &Form::Token(Token::Name),
    &Form::Then(
        &Form::Rule(Rule::GENERICS),
        &Form::Then(
            &Form::Rule(Rule::WHERE_CLAUSE),
            &Form::Then(&Form::Rule(Rule::FIELDS_NAMED), &Form::Empty),
        ),
    ),
);

static PLANNED_80: Form = Form::Then(
    &Form::Token(Token::Word(Word::Struct)),
    &Form::Then(
        &Form::Token(Token::Name),
        &Form::Then(
            &Form::Rule(Rule::GENERICS),
            &Form::Then(&Form::Rule(Rule::STRUCTURE_BODY), &Form::Empty),
        ),
    ),
);

static PLANNED_81: Form = Form::When(
    Look::Word(Word::Enum),
    &Form::Then(
        &Form::Token(Token::Word(Word::Enum)),
        &Form::Then(&Form::Token(Token::Name), &Form::Part(Part::PLANNED_78)),
    ),
    &Form::Then(
        &Form::Token(Token::Word(Word::Union)),
        &Form::Part(Part::PLANNED_79),
    ),
);

static PLANNED_82: Form = Form::When(
    Look::BlockLike,
    &Form::Shaped(
        Shape::Said,
        &Form::Then(
            &Form::Rule(Rule::BLOCK_LIKE),
            &Form::Rule(Rule::STATEMENT_END),
        ),
    ),
    &Form::Shaped(
        Shape::Said,
        &Form::Then(
            &Form::Rule(Rule::WHOLE_EXPRESSION),
            &Form::MarkElse(Mark::Semi, Fault::MissingSemi),
        ),
    ),
);

static PLANNED_83: Form = Form::Shaped(
    Shape::SaidMacro,
    &Form::Then(
        &Form::Shaped(
            Shape::Operand(Variant::Macro),
            &Form::Rule(Rule::MACRO_INVOCATION),
        ),
        &Form::Rule(Rule::STATEMENT_END),
    ),
);

static PLANNED_84: Form = Form::When(
    Look::CrateMacro,
    &Form::Rule(Rule::CRATE_MACRO),
    &Form::When(
        Look::BraceMacro,
        &Form::Part(Part::PLANNED_83),
        &Form::When(
            Look::Word(Word::Let),
            &Form::Shaped(Shape::ALocal, &Form::Rule(Rule::LOCAL)),
            &Form::Part(Part::PLANNED_82),
        ),
    ),
);

static ITEM: Plan = Plan::Reads(&Form::Rule(Rule::ATTRIBUTES), &Plan::Go(Stage::STAGE_93));

static TRAIT_ITEM: Plan = Plan::Reads(&Form::Rule(Rule::ATTRIBUTES), &Plan::Go(Stage::STAGE_103));

static IMPL_ITEM: Plan = Plan::Reads(
    &Form::Rule(Rule::ATTRIBUTES),
    &Plan::Turns(
        Look::Or(&Look::Word(Word::Pub), &Look::EmptyGroup),
        &Plan::Go(Stage::STAGE_110),
        &Plan::Go(Stage::STAGE_113),
    ),
);

static FOREIGN_ITEM: Plan = Plan::Reads(&Form::Rule(Rule::ATTRIBUTES), &Plan::Go(Stage::STAGE_132));

static CRATE_MACRO: Plan = Plan::Rest(&Form::When(
    Look::NoMacroItem,
    &Form::Part(Part::PLANNED_77),
    &Form::Then(
        &Form::Rule(Rule::MODULE_PATH),
        &Form::Then(
            &Form::When(
                Look::Bang,
                &Form::Mark(Mark::Not),
                &Form::Never(Fault::Unexpected),
            ),
            &Form::Part(Part::PLANNED_76),
        ),
    ),
));

static DERIVE_INPUT: Plan = Plan::Rest(&Form::Then(
    &Form::Rule(Rule::ATTRIBUTES),
    &Form::Then(
        &Form::Rule(Rule::VISIBILITY),
        &Form::When(
            Look::Word(Word::Struct),
            &Form::Part(Part::PLANNED_80),
            &Form::Part(Part::PLANNED_81),
        ),
    ),
));

static STATEMENTS: Plan = Plan::Reads(&Form::Rule(Rule::ATTRIBUTES), &Plan::Go(Stage::STAGE_133));

static STATEMENT: Plan = Plan::Reads(
    &Form::Rule(Rule::ATTRIBUTES),
    &Plan::Turns(
        Look::Item,
        &Plan::Go(Stage::STAGE_93),
        &Plan::Rest(&Form::Then(&Form::Part(Part::PLANNED_84), &Form::Empty)),
    ),
);

static USE_ITEM_REST: Plan = Plan::Reads(
    &Form::Rule(Rule::VISIBILITY),
    &Plan::Go(Stage::STAGE_134),
);

static TYPE_ITEM_REST: Plan = Plan::Reads(
    &Form::Rule(Rule::VISIBILITY),
    &Plan::Reads(
        &Form::Token(Token::Word(Word::Type)),
        &Plan::Reads(&Form::Token(Token::Name), &Plan::Go(Stage::STAGE_135)),
    ),
);

static IMPL_DEFINITION_REST: Plan = Plan::Reads(
    &Form::When(
        Look::Word(Word::Default),
        &Form::Token(Token::Word(Word::Default)),
        &Form::Empty,
    ),
    &Plan::Reads(
        &Form::When(
            Look::Word(Word::Const),
            &Form::Token(Token::Word(Word::Const)),
            &Form::Empty,
        ),
        &Plan::Go(Stage::STAGE_138),
    ),
);

static STAGE_1: Plan = Plan::Rest(&Form::Then(
    &Form::Token(Token::Word(Word::Struct)),
    &Form::Then(
        &Form::Token(Token::Name),
        &Form::Then(
            &Form::Rule(Rule::GENERICS),
            &Form::Then(&Form::Rule(Rule::STRUCTURE_BODY), &Form::Empty),
        ),
    ),
));

static STAGE_2: Plan = Plan::Rest(&Form::Then(
    &Form::Token(Token::Word(Word::Enum)),
    &Form::Then(&Form::Token(Token::Name), &Form::Part(Part::PLANNED_1)),
));

static STAGE_3: Plan = Plan::Rest(&Form::Then(
    &Form::Token(Token::Word(Word::Union)),
    &Form::Part(Part::PLANNED_2),
));

static STAGE_4: Plan = Plan::Kept(&Form::Then(
    &Form::Mark(Mark::Colon),
    &Form::Then(&Form::Rule(Rule::TYPE_BOUNDS), &Form::Part(Part::PLANNED_5)),
));

static STAGE_5: Plan = Plan::Rest(&Form::Never(Fault::Unexpected));

static STAGE_6: Plan = Plan::Rest(&Form::Then(&Form::Mark(Mark::Semi), &Form::Empty));

static STAGE_7: Plan = Plan::Reads(
    &Form::Rule(Rule::TYPE),
    &Plan::Turns(
        Look::Word(Word::Where),
        &Plan::Reads(&Form::Rule(Rule::WHERE_CLAUSE), &Plan::Go(Stage::STAGE_5)),
        &Plan::Go(Stage::STAGE_6),
    ),
);

static STAGE_8: Plan = Plan::Reads(&Form::Mark(Mark::Eq), &Plan::Go(Stage::STAGE_7));

static STAGE_9: Plan = Plan::Kept(&Form::Then(&Form::Mark(Mark::Semi), &Form::Empty));

static STAGE_10: Plan = Plan::Reads(
    &Form::Mark(Mark::Eq),
    &Plan::Reads(
        &Form::Rule(Rule::TYPE),
        &Plan::Reads(&Form::Rule(Rule::WHERE_CLAUSE), &Plan::Go(Stage::STAGE_6)),
    ),
);

static STAGE_11: Plan = Plan::Turns(
    Look::Word(Word::Where),
    &Plan::Reads(
        &Form::Rule(Rule::WHERE_CLAUSE),
        &Plan::Turns(
            Look::Mark(Mark::Eq),
            &Plan::Go(Stage::STAGE_8),
            &Plan::Go(Stage::STAGE_9),
        ),
    ),
    &Plan::Turns(
        Look::Mark(Mark::Eq),
        &Plan::Go(Stage::STAGE_10),
        &Plan::Go(Stage::STAGE_9),
    ),
);

static STAGE_12: Plan = Plan::Reads(
    &Form::Token(Token::Name),
    &Plan::Reads(
        &Form::Rule(Rule::GENERICS),
        &Plan::Turns(
            Look::Mark(Mark::Colon),
            &Plan::Go(Stage::STAGE_4),
            &Plan::Go(Stage::STAGE_11),
        ),
    ),
);

static STAGE_13: Plan = Plan::Reads(
    &Form::Token(Token::Word(Word::Type)),
    &Plan::Go(Stage::STAGE_12),
);

static STAGE_14: Plan = Plan::Rest(&Form::Then(
    &Form::Mark(Mark::Eq),
    &Form::Then(
        &Form::Rule(Rule::WHOLE_EXPRESSION),
        &Form::Then(&Form::Mark(Mark::Semi), &Form::Empty),
    ),
));

static STAGE_15: Plan = Plan::Reads(
    &Form::Mark(Mark::Colon),
    &Plan::Reads(
        &Form::Rule(Rule::TYPE),
        &Plan::Turns(
            Look::Mark(Mark::Eq),
            &Plan::Go(Stage::STAGE_14),
            &Plan::Go(Stage::STAGE_9),
        ),
    ),
);

static STAGE_16: Plan = Plan::Kept(&Form::Then(
    &Form::Mark(Mark::Eq),
    &Form::Then(
        &Form::Rule(Rule::WHOLE_EXPRESSION),
        &Form::Then(&Form::Mark(Mark::Semi), &Form::Empty),
    ),
));

static STAGE_17: Plan = Plan::Reads(
    &Form::When(
        Look::Word(Word::Mut),
        &Form::Token(Token::Word(Word::Mut)),
        &Form::Empty,
    ),
    &Plan::Reads(
        &Form::Token(Token::Name),
        &Plan::Turns(
            Look::Mark(Mark::Colon),
            &Plan::Go(Stage::STAGE_15),
            &Plan::Go(Stage::STAGE_16),
        ),
    ),
);

static STAGE_18: Plan = Plan::Reads(
    &Form::Token(Token::Word(Word::Static)),
    &Plan::Go(Stage::STAGE_17),
);

static STAGE_19: Plan = Plan::Rest(&Form::Then(
    &Form::When(
        Look::Mark(Mark::PathSep),
        &Form::Mark(Mark::PathSep),
        &Form::Empty,
    ),
    &Form::Then(
        &Form::Rule(Rule::USE_TREE),
        &Form::Then(&Form::Mark(Mark::Semi), &Form::Empty),
    ),
));

static STAGE_20: Plan = Plan::Reads(
    &Form::Token(Token::Word(Word::Use)),
    &Plan::Turns(
        Look::Group(Delimiter::Brace),
        &Plan::Rooted(&Plan::Go(Stage::STAGE_9), &Plan::Go(Stage::STAGE_6)),
        &Plan::Go(Stage::STAGE_19),
    ),
);

static STAGE_21: Plan = Plan::Rest(&Form::Then(
    &Form::Token(Token::Word(Word::Mod)),
    &Form::Then(
        &Form::Token(Token::NameOrTry),
        &Form::When(
            Look::Mark(Mark::Semi),
            &Form::Then(&Form::Mark(Mark::Semi), &Form::Empty),
            &Form::Part(Part::PLANNED_6),
        ),
    ),
));

static STAGE_22: Plan = Plan::Rest(&Form::Then(
    &Form::Token(Token::Word(Word::Trait)),
    &Form::Part(Part::PLANNED_9),
));

static STAGE_23: Plan = Plan::Rest(&Form::Then(
    &Form::When(
        Look::Word(Word::Auto),
        &Form::Token(Token::Word(Word::Auto)),
        &Form::Empty,
    ),
    &Form::Part(Part::PLANNED_11),
));

static STAGE_24: Plan = Plan::Kept(&Form::Then(
    &Form::Token(Token::Word(Word::Macro)),
    &Form::Part(Part::PLANNED_12),
));

static STAGE_25: Plan = Plan::Turns(
    Look::Mark(Mark::Semi),
    &Plan::Go(Stage::STAGE_9),
    &Plan::Rest(&Form::Then(&Form::Rule(Rule::BODY), &Form::Empty)),
);

static STAGE_26: Plan = Plan::Reads(&Form::Rule(Rule::SIGNATURE), &Plan::Go(Stage::STAGE_25));

static STAGE_27: Plan = Plan::Rest(&Form::Then(
    &Form::Token(Token::Word(Word::Crate)),
    &Form::Then(
        &Form::Token(Token::NameOrSelf),
        &Form::Part(Part::PLANNED_13),
    ),
));

static STAGE_28: Plan = Plan::Reads(
    &Form::Rule(Rule::SIGNATURE_REST),
    &Plan::Go(Stage::STAGE_25),
);

static STAGE_29: Plan = Plan::Reads(
    &Form::When(Look::StrLiteral, &Form::Token(Token::Str), &Form::Empty),
    &Plan::Go(Stage::STAGE_28),
);

static STAGE_30: Plan = Plan::Reads(
    &Form::Token(Token::Word(Word::Extern)),
    &Plan::Turns(
        Look::Word(Word::Crate),
        &Plan::Go(Stage::STAGE_27),
        &Plan::Go(Stage::STAGE_29),
    ),
);

static STAGE_31: Plan = Plan::Turns(
    Look::Or(&Look::Word(Word::Trait), &Look::Word(Word::Auto)),
    &Plan::Go(Stage::STAGE_23),
    &Plan::Turns(
        Look::Word(Word::Extern),
        &Plan::Reads(
            &Form::Token(Token::Word(Word::Extern)),
            &Plan::Go(Stage::STAGE_29),
        ),
        &Plan::Go(Stage::STAGE_28),
    ),
);

static STAGE_32: Plan = Plan::Reads(
    &Form::Token(Token::Word(Word::Unsafe)),
    &Plan::Turns(
        Look::Word(Word::Mod),
        &Plan::Go(Stage::STAGE_21),
        &Plan::Go(Stage::STAGE_31),
    ),
);

static STAGE_33: Plan = Plan::Kept(&Form::Then(
    &Form::Token(Token::Word(Word::Impl)),
    &Form::Then(
        &Form::When(
            Look::Generics,
            &Form::Ordered(List::Parameters),
            &Form::Empty,
        ),
        &Form::Part(Part::PLANNED_16),
    ),
));

static STAGE_34: Plan = Plan::Reads(
    &Form::When(
        Look::Word(Word::Extern),
        &Form::Rule(Rule::ABI),
        &Form::Empty,
    ),
    &Plan::Go(Stage::STAGE_28),
);

static STAGE_35: Plan = Plan::Turns(
    Look::Or(&Look::Word(Word::Trait), &Look::Word(Word::Auto)),
    &Plan::Go(Stage::STAGE_23),
    &Plan::Turns(
        Look::Word(Word::Impl),
        &Plan::Go(Stage::STAGE_33),
        &Plan::Go(Stage::STAGE_34),
    ),
);

static STAGE_36: Plan = Plan::Kept(&Form::Then(
    &Form::Mark(Mark::Eq),
    &Form::Then(
        &Form::Rule(Rule::ALIAS_BOUNDS),
        &Form::Then(
            &Form::Rule(Rule::WHERE_CLAUSE),
            &Form::Then(&Form::Mark(Mark::Semi), &Form::Empty),
        ),
    ),
));

static STAGE_37: Plan = Plan::Reads(
    &Form::Rule(Rule::GENERICS),
    &Plan::Turns(
        Look::Mark(Mark::Eq),
        &Plan::Go(Stage::STAGE_36),
        &Plan::Rest(&Form::Then(
            &Form::Fading(Fading::Supertraits),
            &Form::Part(Part::PLANNED_17),
        )),
    ),
);

static STAGE_38: Plan = Plan::Reads(
    &Form::Token(Token::Word(Word::Trait)),
    &Plan::Reads(&Form::Token(Token::Name), &Plan::Go(Stage::STAGE_37)),
);

static STAGE_39: Plan = Plan::Reads(
    &Form::When(
        Look::Word(Word::Async),
        &Form::Token(Token::Word(Word::Async)),
        &Form::Empty,
    ),
    &Plan::Reads(&Form::Rule(Rule::UNSAFE_ONLY), &Plan::Go(Stage::STAGE_34)),
);

static STAGE_40: Plan = Plan::Kept(&Form::Then(
    &Form::Ordered(List::Parameters),
    &Form::Then(&Form::Mark(Mark::Colon), &Form::Part(Part::PLANNED_19)),
));

static STAGE_41: Plan = Plan::Kept(&Form::Then(
    &Form::Then(
        &Form::Token(Token::Word(Word::Where)),
        &Form::Rule(Rule::PREDICATES),
    ),
    &Form::Then(&Form::Mark(Mark::Semi), &Form::Empty),
));

static STAGE_42: Plan = Plan::Turns(
    Look::Mark(Mark::Semi),
    &Plan::Go(Stage::STAGE_6),
    &Plan::Go(Stage::STAGE_41),
);

static STAGE_43: Plan = Plan::Kept(&Form::Then(
    &Form::When(
        Look::Word(Word::Where),
        &Form::Then(
            &Form::Token(Token::Word(Word::Where)),
            &Form::Rule(Rule::PREDICATES),
        ),
        &Form::Empty,
    ),
    &Form::Then(&Form::Mark(Mark::Semi), &Form::Empty),
));

static STAGE_44: Plan = Plan::Turns(
    Look::Mark(Mark::Eq),
    &Plan::Reads(
        &Form::Mark(Mark::Eq),
        &Plan::Reads(
            &Form::Rule(Rule::WHOLE_EXPRESSION),
            &Plan::Go(Stage::STAGE_42),
        ),
    ),
    &Plan::Go(Stage::STAGE_43),
);

static STAGE_45: Plan = Plan::Turns(
    Look::Mark(Mark::Lt),
    &Plan::Go(Stage::STAGE_40),
    &Plan::Reads(
        &Form::Mark(Mark::Colon),
        &Plan::Reads(&Form::Rule(Rule::TYPE), &Plan::Go(Stage::STAGE_44)),
    ),
);

static STAGE_46: Plan = Plan::Reads(
    &Form::Token(Token::NameOrUnderscore),
    &Plan::Go(Stage::STAGE_45),
);

static STAGE_47: Plan = Plan::Turns(
    Look::Or(
        &Look::Word(Word::Async),
        &Look::Or(&Look::Word(Word::Extern), &Look::Word(Word::Fn)),
    ),
    &Plan::Go(Stage::STAGE_39),
    &Plan::Go(Stage::STAGE_46),
);

static STAGE_48: Plan = Plan::Turns(
    Look::Word(Word::Trait),
    &Plan::Go(Stage::STAGE_38),
    &Plan::Turns(
        Look::MarkedAuto,
        &Plan::Go(Stage::STAGE_23),
        &Plan::Turns(
            Look::Word(Word::Impl),
            &Plan::Go(Stage::STAGE_33),
            &Plan::Go(Stage::STAGE_47),
        ),
    ),
);

static STAGE_49: Plan = Plan::Reads(
    &Form::Token(Token::Word(Word::Const)),
    &Plan::Turns(
        Look::Word(Word::Unsafe),
        &Plan::Reads(
            &Form::Token(Token::Word(Word::Unsafe)),
            &Plan::Go(Stage::STAGE_35),
        ),
        &Plan::Go(Stage::STAGE_48),
    ),
);

static STAGE_50: Plan = Plan::Kept(&Form::When(
    Look::Word(Word::Impl),
    &Form::Then(
        &Form::Token(Token::Word(Word::Impl)),
        &Form::Part(Part::PLANNED_22),
    ),
    &Form::Never(Fault::Unexpected),
));

static STAGE_51: Plan = Plan::Turns(
    Look::Word(Word::Extern),
    &Plan::Go(Stage::STAGE_30),
    &Plan::Turns(
        Look::Word(Word::Unsafe),
        &Plan::Go(Stage::STAGE_32),
        &Plan::Turns(
            Look::Word(Word::Const),
            &Plan::Go(Stage::STAGE_49),
            &Plan::Go(Stage::STAGE_50),
        ),
    ),
);

static STAGE_52: Plan = Plan::Turns(
    Look::Word(Word::Macro),
    &Plan::Go(Stage::STAGE_24),
    &Plan::Turns(
        Look::Or(&Look::Word(Word::Fn), &Look::Word(Word::Async)),
        &Plan::Go(Stage::STAGE_26),
        &Plan::Go(Stage::STAGE_51),
    ),
);

static STAGE_53: Plan = Plan::Turns(
    Look::Word(Word::Mod),
    &Plan::Go(Stage::STAGE_21),
    &Plan::Turns(
        Look::Word(Word::Trait),
        &Plan::Go(Stage::STAGE_22),
        &Plan::Turns(
            Look::MarkedAuto,
            &Plan::Go(Stage::STAGE_23),
            &Plan::Go(Stage::STAGE_52),
        ),
    ),
);

static STAGE_54: Plan = Plan::Turns(
    Look::Word(Word::Type),
    &Plan::Go(Stage::STAGE_13),
    &Plan::Turns(
        Look::Word(Word::Static),
        &Plan::Go(Stage::STAGE_18),
        &Plan::Turns(
            Look::Word(Word::Use),
            &Plan::Go(Stage::STAGE_20),
            &Plan::Go(Stage::STAGE_53),
        ),
    ),
);

static STAGE_55: Plan = Plan::Turns(
    Look::Word(Word::Struct),
    &Plan::Go(Stage::STAGE_1),
    &Plan::Turns(
        Look::Word(Word::Enum),
        &Plan::Go(Stage::STAGE_2),
        &Plan::Turns(
            Look::MarkedUnion,
            &Plan::Go(Stage::STAGE_3),
            &Plan::Go(Stage::STAGE_54),
        ),
    ),
);

static STAGE_56: Plan = Plan::Turns(
    Look::Or(&Look::Word(Word::Trait), &Look::Word(Word::Auto)),
    &Plan::Go(Stage::STAGE_23),
    &Plan::Turns(
        Look::Word(Word::Impl),
        &Plan::Go(Stage::STAGE_5),
        &Plan::Go(Stage::STAGE_34),
    ),
);

static STAGE_57: Plan = Plan::Turns(
    Look::Word(Word::Trait),
    &Plan::Go(Stage::STAGE_38),
    &Plan::Turns(
        Look::MarkedAuto,
        &Plan::Go(Stage::STAGE_23),
        &Plan::Turns(
            Look::Word(Word::Impl),
            &Plan::Go(Stage::STAGE_5),
            &Plan::Go(Stage::STAGE_47),
        ),
    ),
);

static STAGE_58: Plan = Plan::Reads(
    &Form::Token(Token::Word(Word::Const)),
    &Plan::Turns(
        Look::Word(Word::Unsafe),
        &Plan::Reads(
            &Form::Token(Token::Word(Word::Unsafe)),
            &Plan::Go(Stage::STAGE_56),
        ),
        &Plan::Go(Stage::STAGE_57),
    ),
);

static STAGE_59: Plan = Plan::Turns(
    Look::Word(Word::Extern),
    &Plan::Go(Stage::STAGE_30),
    &Plan::Turns(
        Look::Word(Word::Unsafe),
        &Plan::Go(Stage::STAGE_32),
        &Plan::Turns(
            Look::Word(Word::Const),
            &Plan::Go(Stage::STAGE_58),
            &Plan::Go(Stage::STAGE_50),
        ),
    ),
);

static STAGE_60: Plan = Plan::Turns(
    Look::Word(Word::Macro),
    &Plan::Go(Stage::STAGE_24),
    &Plan::Turns(
        Look::Or(&Look::Word(Word::Fn), &Look::Word(Word::Async)),
        &Plan::Go(Stage::STAGE_26),
        &Plan::Go(Stage::STAGE_59),
    ),
);

static STAGE_61: Plan = Plan::Turns(
    Look::Word(Word::Mod),
    &Plan::Go(Stage::STAGE_21),
    &Plan::Turns(
        Look::Word(Word::Trait),
        &Plan::Go(Stage::STAGE_22),
        &Plan::Turns(
            Look::MarkedAuto,
            &Plan::Go(Stage::STAGE_23),
            &Plan::Go(Stage::STAGE_60),
        ),
    ),
);

static STAGE_62: Plan = Plan::Turns(
    Look::Word(Word::Type),
    &Plan::Go(Stage::STAGE_13),
    &Plan::Turns(
        Look::Word(Word::Static),
        &Plan::Go(Stage::STAGE_18),
        &Plan::Turns(
            Look::Word(Word::Use),
            &Plan::Go(Stage::STAGE_20),
            &Plan::Go(Stage::STAGE_61),
        ),
    ),
);

static STAGE_63: Plan = Plan::Turns(
    Look::Word(Word::Struct),
    &Plan::Go(Stage::STAGE_1),
    &Plan::Turns(
        Look::Word(Word::Enum),
        &Plan::Go(Stage::STAGE_2),
        &Plan::Turns(
            Look::MarkedUnion,
            &Plan::Go(Stage::STAGE_3),
            &Plan::Go(Stage::STAGE_62),
        ),
    ),
);

static STAGE_64: Plan = Plan::Rest(&Form::Then(
    &Form::Inside(
        Delimiter::Brace,
        &Form::Then(
            &Form::Rule(Rule::INNER_ATTRIBUTES),
            &Form::Rule(Rule::FOREIGN_ITEMS),
        ),
    ),
    &Form::Empty,
));

static STAGE_65: Plan = Plan::Reads(
    &Form::When(Look::StrLiteral, &Form::Token(Token::Str), &Form::Empty),
    &Plan::Turns(
        Look::Group(Delimiter::Brace),
        &Plan::Go(Stage::STAGE_64),
        &Plan::Go(Stage::STAGE_28),
    ),
);

static STAGE_66: Plan = Plan::Rest(&Form::Then(&Form::Rule(Rule::IMPL_BODY), &Form::Empty));

static STAGE_67: Plan = Plan::SelfType(&Plan::Go(Stage::STAGE_66));

static STAGE_68: Plan = Plan::Reads(&Form::Rule(Rule::TYPE_PATH), &Plan::Go(Stage::STAGE_67));

static STAGE_69: Plan = Plan::Kept(&Form::Then(
    &Form::Rule(Rule::TYPE),
    &Form::Then(
        &Form::Rule(Rule::FOR_SELF_TYPE),
        &Form::Then(&Form::Rule(Rule::IMPL_BODY), &Form::Empty),
    ),
));

static STAGE_70: Plan = Plan::Turns(
    Look::Group(Delimiter::Brace),
    &Plan::Go(Stage::STAGE_66),
    &Plan::Turns(
        Look::Or(&Look::PathWord, &Look::Mark(Mark::PathSep)),
        &Plan::Go(Stage::STAGE_68),
        &Plan::Go(Stage::STAGE_69),
    ),
);

static STAGE_71: Plan = Plan::Reads(
    &Form::Rule(Rule::TYPE_PATH),
    &Plan::Turns(
        Look::Word(Word::For),
        &Plan::Go(Stage::STAGE_67),
        &Plan::Go(Stage::STAGE_66),
    ),
);

static STAGE_72: Plan = Plan::Kept(&Form::Then(
    &Form::Rule(Rule::FOR_SELF_TYPE),
    &Form::Then(&Form::Rule(Rule::IMPL_BODY), &Form::Empty),
));

static STAGE_73: Plan = Plan::Turns(
    Look::Or(&Look::PathWord, &Look::Mark(Mark::PathSep)),
    &Plan::Go(Stage::STAGE_71),
    &Plan::Reads(
        &Form::Rule(Rule::TYPE),
        &Plan::Turns(
            Look::Word(Word::For),
            &Plan::Go(Stage::STAGE_72),
            &Plan::Go(Stage::STAGE_66),
        ),
    ),
);

static STAGE_74: Plan = Plan::Lists(&Plan::Led(&Plan::Turns(
    Look::Mark(Mark::Not),
    &Plan::Reads(&Form::Mark(Mark::Not), &Plan::Go(Stage::STAGE_70)),
    &Plan::Go(Stage::STAGE_73),
)));

static STAGE_75: Plan = Plan::Reads(
    &Form::Token(Token::Word(Word::Impl)),
    &Plan::Go(Stage::STAGE_74),
);

static STAGE_76: Plan = Plan::Turns(
    Look::Word(Word::Impl),
    &Plan::Go(Stage::STAGE_75),
    &Plan::Turns(
        Look::Word(Word::Extern),
        &Plan::Reads(
            &Form::Token(Token::Word(Word::Extern)),
            &Plan::Go(Stage::STAGE_65),
        ),
        &Plan::Go(Stage::STAGE_28),
    ),
);

static STAGE_77: Plan = Plan::Turns(
    Look::Word(Word::Mod),
    &Plan::Go(Stage::STAGE_21),
    &Plan::Turns(
        Look::Or(&Look::Word(Word::Trait), &Look::Word(Word::Auto)),
        &Plan::Go(Stage::STAGE_23),
        &Plan::Go(Stage::STAGE_76),
    ),
);

static STAGE_78: Plan = Plan::Turns(
    Look::Or(&Look::Word(Word::Trait), &Look::Word(Word::Auto)),
    &Plan::Go(Stage::STAGE_23),
    &Plan::Turns(
        Look::Word(Word::Impl),
        &Plan::Go(Stage::STAGE_75),
        &Plan::Go(Stage::STAGE_34),
    ),
);

static STAGE_79: Plan = Plan::Turns(
    Look::Word(Word::Trait),
    &Plan::Go(Stage::STAGE_38),
    &Plan::Turns(
        Look::MarkedAuto,
        &Plan::Go(Stage::STAGE_23),
        &Plan::Turns(
            Look::Word(Word::Impl),
            &Plan::Go(Stage::STAGE_75),
            &Plan::Go(Stage::STAGE_47),
        ),
    ),
);

static STAGE_80: Plan = Plan::Reads(
    &Form::Token(Token::Word(Word::Const)),
    &Plan::Turns(
        Look::Word(Word::Unsafe),
        &Plan::Reads(
            &Form::Token(Token::Word(Word::Unsafe)),
            &Plan::Go(Stage::STAGE_78),
        ),
        &Plan::Go(Stage::STAGE_79),
    ),
);

static STAGE_81: Plan = Plan::Kept(&Form::Then(
    &Form::When(
        Look::Word(Word::Const),
        &Form::Token(Token::Word(Word::Const)),
        &Form::Empty,
    ),
    &Form::Then(&Form::Rule(Rule::BARE_TRAIT), &Form::Empty),
));

static STAGE_82: Plan = Plan::Turns(
    Look::Word(Word::For),
    &Plan::Go(Stage::STAGE_72),
    &Plan::Turns(
        Look::Or(&Look::Word(Word::Where), &Look::Group(Delimiter::Brace)),
        &Plan::Go(Stage::STAGE_66),
        &Plan::Go(Stage::STAGE_81),
    ),
);

static STAGE_83: Plan = Plan::Turns(
    Look::InRestriction,
    &Plan::Kept(&Form::Then(
        &Form::Inside(Delimiter::Paren, &Form::Rule(Rule::RESTRICTION)),
        &Form::Part(Part::PLANNED_23),
    )),
    &Plan::Turns(
        Look::LoneWord,
        &Plan::Reads(&Form::Rule(Rule::TYPE), &Plan::Go(Stage::STAGE_82)),
        &Plan::Go(Stage::STAGE_74),
    ),
);

static STAGE_84: Plan = Plan::Rest(&Form::When(
    Look::NoMacroItem,
    &Form::Never(Fault::Unexpected),
    &Form::Then(
        &Form::Rule(Rule::MODULE_PATH),
        &Form::Then(
            &Form::When(
                Look::Bang,
                &Form::Mark(Mark::Not),
                &Form::Never(Fault::Unexpected),
            ),
            &Form::Part(Part::PLANNED_24),
        ),
    ),
));

static STAGE_85: Plan = Plan::Reads(
    &Form::When(
        Look::Word(Word::Const),
        &Form::Token(Token::Word(Word::Const)),
        &Form::Empty,
    ),
    &Plan::Reads(
        &Form::When(
            Look::Word(Word::Unsafe),
            &Form::Token(Token::Word(Word::Unsafe)),
            &Form::Empty,
        ),
        &Plan::Go(Stage::STAGE_75),
    ),
);

static STAGE_86: Plan = Plan::Turns(
    Look::Word(Word::Default),
    &Plan::Turns(
        Look::BeforeMacro,
        &Plan::Go(Stage::STAGE_84),
        &Plan::Reads(
            &Form::Token(Token::Word(Word::Default)),
            &Plan::Go(Stage::STAGE_85),
        ),
    ),
    &Plan::Go(Stage::STAGE_84),
);

static STAGE_87: Plan = Plan::Turns(
    Look::Word(Word::Const),
    &Plan::Go(Stage::STAGE_80),
    &Plan::Turns(
        Look::Word(Word::Impl),
        &Plan::Reads(
            &Form::Token(Token::Word(Word::Impl)),
            &Plan::Go(Stage::STAGE_83),
        ),
        &Plan::Go(Stage::STAGE_86),
    ),
);

static STAGE_88: Plan = Plan::Turns(
    Look::Word(Word::Extern),
    &Plan::Reads(
        &Form::Token(Token::Word(Word::Extern)),
        &Plan::Turns(
            Look::Word(Word::Crate),
            &Plan::Go(Stage::STAGE_27),
            &Plan::Go(Stage::STAGE_65),
        ),
    ),
    &Plan::Turns(
        Look::Word(Word::Unsafe),
        &Plan::Reads(
            &Form::Token(Token::Word(Word::Unsafe)),
            &Plan::Go(Stage::STAGE_77),
        ),
        &Plan::Go(Stage::STAGE_87),
    ),
);

static STAGE_89: Plan = Plan::Turns(
    Look::Word(Word::Macro),
    &Plan::Go(Stage::STAGE_24),
    &Plan::Turns(
        Look::Or(&Look::Word(Word::Fn), &Look::Word(Word::Async)),
        &Plan::Go(Stage::STAGE_26),
        &Plan::Go(Stage::STAGE_88),
    ),
);

static STAGE_90: Plan = Plan::Turns(
    Look::Word(Word::Mod),
    &Plan::Go(Stage::STAGE_21),
    &Plan::Turns(
        Look::Word(Word::Trait),
        &Plan::Go(Stage::STAGE_22),
        &Plan::Turns(
            Look::MarkedAuto,
            &Plan::Go(Stage::STAGE_23),
            &Plan::Go(Stage::STAGE_89),
        ),
    ),
);

static STAGE_91: Plan = Plan::Turns(
    Look::Word(Word::Type),
    &Plan::Go(Stage::STAGE_13),
    &Plan::Turns(
        Look::Word(Word::Static),
        &Plan::Go(Stage::STAGE_18),
        &Plan::Turns(
            Look::Word(Word::Use),
            &Plan::Go(Stage::STAGE_20),
            &Plan::Go(Stage::STAGE_90),
        ),
    ),
);

static STAGE_92: Plan = Plan::Turns(
    Look::Word(Word::Struct),
    &Plan::Go(Stage::STAGE_1),
    &Plan::Turns(
        Look::Word(Word::Enum),
        &Plan::Go(Stage::STAGE_2),
        &Plan::Turns(
            Look::MarkedUnion,
            &Plan::Go(Stage::STAGE_3),
            &Plan::Go(Stage::STAGE_91),
        ),
    ),
);

static STAGE_93: Plan = Plan::Turns(
    Look::Word(Word::Pub),
    &Plan::Reads(&Form::Rule(Rule::VISIBILITY), &Plan::Go(Stage::STAGE_55)),
    &Plan::Turns(
        Look::EmptyGroup,
        &Plan::Reads(&Form::Rule(Rule::VISIBILITY), &Plan::Go(Stage::STAGE_63)),
        &Plan::Go(Stage::STAGE_92),
    ),
);

static STAGE_94: Plan = Plan::Kept(&Form::Then(
    &Form::Rule(Rule::VISIBILITY),
    &Form::Then(
        &Form::When(
            Look::Word(Word::Default),
            &Form::Token(Token::Word(Word::Default)),
            &Form::Empty,
        ),
        &Form::Part(Part::PLANNED_35),
    ),
));

static STAGE_95: Plan = Plan::Kept(&Form::Then(
    &Form::Rule(Rule::VISIBILITY),
    &Form::When(
        Look::Word(Word::Default),
        &Form::Part(Part::PLANNED_51),
        &Form::Then(
            &Form::Token(Token::Word(Word::Const)),
            &Form::Then(
                &Form::Token(Token::NameOrUnderscore),
                &Form::Part(Part::PLANNED_50),
            ),
        ),
    ),
));

static STAGE_96: Plan = Plan::Kept(&Form::Then(
    &Form::Token(Token::Word(Word::Default)),
    &Form::When(
        Look::Word(Word::Type),
        &Form::Part(Part::PLANNED_61),
        &Form::When(
            Look::Word(Word::Const),
            &Form::Then(
                &Form::Token(Token::Word(Word::Const)),
                &Form::Part(Part::PLANNED_59),
            ),
            &Form::Part(Part::PLANNED_60),
        ),
    ),
));

static STAGE_97: Plan = Plan::Rest(&Form::Then(
    &Form::Token(Token::Word(Word::Type)),
    &Form::Then(
        &Form::Token(Token::Name),
        &Form::Then(&Form::Rule(Rule::GENERICS), &Form::Part(Part::PLANNED_63)),
    ),
));

static STAGE_98: Plan = Plan::Reads(
    &Form::When(
        Look::Mark(Mark::Eq),
        &Form::Then(&Form::Mark(Mark::Eq), &Form::Rule(Rule::WHOLE_EXPRESSION)),
        &Form::Empty,
    ),
    &Plan::Go(Stage::STAGE_42),
);

static STAGE_99: Plan = Plan::Turns(
    Look::Mark(Mark::Lt),
    &Plan::Go(Stage::STAGE_40),
    &Plan::Reads(
        &Form::Mark(Mark::Colon),
        &Plan::Reads(&Form::Rule(Rule::TYPE), &Plan::Go(Stage::STAGE_98)),
    ),
);

static STAGE_100: Plan = Plan::Turns(
    Look::Or(
        &Look::Word(Word::Async),
        &Look::Or(
            &Look::Word(Word::Unsafe),
            &Look::Or(&Look::Word(Word::Extern), &Look::Word(Word::Fn)),
        ),
    ),
    &Plan::Rest(&Form::Then(
        &Form::When(
            Look::Word(Word::Async),
            &Form::Token(Token::Word(Word::Async)),
            &Form::Empty,
        ),
        &Form::Part(Part::PLANNED_65),
    )),
    &Plan::Reads(
        &Form::Token(Token::NameOrUnderscore),
        &Plan::Go(Stage::STAGE_99),
    ),
);

static STAGE_101: Plan = Plan::Rest(&Form::When(
    Look::Or(
        &Look::Word(Word::Async),
        &Look::Or(
            &Look::Word(Word::Unsafe),
            &Look::Or(&Look::Word(Word::Extern), &Look::Word(Word::Fn)),
        ),
    ),
    &Form::Part(Part::PLANNED_67),
    &Form::When(
        Look::Or(&Look::Word(Word::SelfType), &Look::Word(Word::Default)),
        &Form::Never(Fault::Unexpected),
        &Form::Part(Part::PLANNED_66),
    ),
));

static STAGE_102: Plan = Plan::Turns(
    Look::Word(Word::Type),
    &Plan::Go(Stage::STAGE_97),
    &Plan::Turns(
        Look::Word(Word::Const),
        &Plan::Reads(
            &Form::Token(Token::Word(Word::Const)),
            &Plan::Go(Stage::STAGE_100),
        ),
        &Plan::Go(Stage::STAGE_101),
    ),
);

static STAGE_103: Plan = Plan::Turns(
    Look::Word(Word::Pub),
    &Plan::Go(Stage::STAGE_94),
    &Plan::Turns(
        Look::EmptyGroup,
        &Plan::Go(Stage::STAGE_95),
        &Plan::Turns(
            Look::Word(Word::Default),
            &Plan::Go(Stage::STAGE_96),
            &Plan::Go(Stage::STAGE_102),
        ),
    ),
);

static STAGE_104: Plan = Plan::Rest(&Form::Then(
    &Form::Mark(Mark::Eq),
    &Form::Then(
        &Form::Rule(Rule::TYPE),
        &Form::Then(
            &Form::Rule(Rule::WHERE_CLAUSE),
            &Form::Then(&Form::Mark(Mark::Semi), &Form::Empty),
        ),
    ),
));

static STAGE_105: Plan = Plan::Turns(
    Look::Mark(Mark::Eq),
    &Plan::Go(Stage::STAGE_104),
    &Plan::Kept(&Form::When(
        Look::Mark(Mark::Colon),
        &Form::Then(&Form::Mark(Mark::Colon), &Form::Part(Part::PLANNED_69)),
        &Form::Part(Part::PLANNED_70),
    )),
);

static STAGE_106: Plan = Plan::Reads(
    &Form::Token(Token::Word(Word::Type)),
    &Plan::Reads(
        &Form::Token(Token::Name),
        &Plan::Reads(&Form::Rule(Rule::GENERICS), &Plan::Go(Stage::STAGE_105)),
    ),
);

static STAGE_107: Plan = Plan::Turns(
    Look::Or(
        &Look::Word(Word::Async),
        &Look::Or(
            &Look::Word(Word::Unsafe),
            &Look::Or(&Look::Word(Word::Extern), &Look::Word(Word::Fn)),
        ),
    ),
    &Plan::Go(Stage::STAGE_39),
    &Plan::Go(Stage::STAGE_46),
);

static STAGE_108: Plan = Plan::Reads(
    &Form::Token(Token::Word(Word::Const)),
    &Plan::Go(Stage::STAGE_107),
);

static STAGE_109: Plan = Plan::Turns(
    Look::Word(Word::Type),
    &Plan::Go(Stage::STAGE_106),
    &Plan::Turns(
        Look::Word(Word::Const),
        &Plan::Go(Stage::STAGE_108),
        &Plan::Go(Stage::STAGE_26),
    ),
);

static STAGE_110: Plan = Plan::Reads(
    &Form::Rule(Rule::VISIBILITY),
    &Plan::Reads(
        &Form::When(
            Look::Word(Word::Default),
            &Form::Token(Token::Word(Word::Default)),
            &Form::Empty,
        ),
        &Plan::Go(Stage::STAGE_109),
    ),
);

static STAGE_111: Plan = Plan::Rest(&Form::When(
    Look::NoMacroItem,
    &Form::Never(Fault::Unexpected),
    &Form::Part(Part::PLANNED_71),
));

static STAGE_112: Plan = Plan::Turns(
    Look::Or(
        &Look::Word(Word::Async),
        &Look::Or(
            &Look::Word(Word::Unsafe),
            &Look::Or(&Look::Word(Word::Extern), &Look::Word(Word::Fn)),
        ),
    ),
    &Plan::Go(Stage::STAGE_26),
    &Plan::Go(Stage::STAGE_111),
);

static STAGE_113: Plan = Plan::Turns(
    Look::Word(Word::Default),
    &Plan::Turns(
        Look::BeforeMacro,
        &Plan::Go(Stage::STAGE_111),
        &Plan::Reads(
            &Form::Token(Token::Word(Word::Default)),
            &Plan::Go(Stage::STAGE_109),
        ),
    ),
    &Plan::Turns(
        Look::Word(Word::Type),
        &Plan::Go(Stage::STAGE_106),
        &Plan::Turns(
            Look::Word(Word::Const),
            &Plan::Go(Stage::STAGE_108),
            &Plan::Go(Stage::STAGE_112),
        ),
    ),
);

static STAGE_114: Plan = Plan::Reads(
    &Form::Mark(Mark::Colon),
    &Plan::Reads(
        &Form::Rule(Rule::TYPE),
        &Plan::Turns(
            Look::Mark(Mark::Semi),
            &Plan::Go(Stage::STAGE_6),
            &Plan::Go(Stage::STAGE_16),
        ),
    ),
);

static STAGE_115: Plan = Plan::Reads(
    &Form::When(
        Look::Word(Word::Mut),
        &Form::Token(Token::Word(Word::Mut)),
        &Form::Empty,
    ),
    &Plan::Reads(&Form::Token(Token::Name), &Plan::Go(Stage::STAGE_114)),
);

static STAGE_116: Plan = Plan::Reads(
    &Form::Token(Token::Word(Word::Static)),
    &Plan::Go(Stage::STAGE_115),
);

static STAGE_117: Plan = Plan::Turns(
    Look::Mark(Mark::Semi),
    &Plan::Go(Stage::STAGE_6),
    &Plan::Kept(&Form::Then(&Form::Rule(Rule::BODY), &Form::Empty)),
);

static STAGE_118: Plan = Plan::Reads(
    &Form::When(
        Look::Word(Word::Extern),
        &Form::Rule(Rule::ABI),
        &Form::Empty,
    ),
    &Plan::Reads(
        &Form::Rule(Rule::SIGNATURE_REST),
        &Plan::Go(Stage::STAGE_117),
    ),
);

static STAGE_119: Plan = Plan::Reads(
    &Form::Rule(Rule::SAFE_OR_UNSAFE),
    &Plan::Turns(
        Look::Word(Word::Static),
        &Plan::Go(Stage::STAGE_116),
        &Plan::Go(Stage::STAGE_118),
    ),
);

static STAGE_120: Plan = Plan::Kept(&Form::Then(
    &Form::Mark(Mark::Eq),
    &Form::Then(
        &Form::Rule(Rule::TYPE),
        &Form::Then(&Form::Mark(Mark::Semi), &Form::Empty),
    ),
));

static STAGE_121: Plan = Plan::Turns(
    Look::Mark(Mark::Semi),
    &Plan::Go(Stage::STAGE_6),
    &Plan::Kept(&Form::Then(
        &Form::Mark(Mark::Eq),
        &Form::Then(&Form::Rule(Rule::TYPE), &Form::Part(Part::PLANNED_72)),
    )),
);

static STAGE_122: Plan = Plan::Turns(
    Look::Word(Word::Where),
    &Plan::Reads(
        &Form::Rule(Rule::WHERE_CLAUSE),
        &Plan::Turns(
            Look::Mark(Mark::Semi),
            &Plan::Go(Stage::STAGE_6),
            &Plan::Go(Stage::STAGE_120),
        ),
    ),
    &Plan::Go(Stage::STAGE_121),
);

static STAGE_123: Plan = Plan::Reads(
    &Form::Token(Token::Name),
    &Plan::Reads(
        &Form::Rule(Rule::GENERICS),
        &Plan::Turns(
            Look::Mark(Mark::Colon),
            &Plan::Go(Stage::STAGE_4),
            &Plan::Go(Stage::STAGE_122),
        ),
    ),
);

static STAGE_124: Plan = Plan::Reads(
    &Form::Token(Token::Word(Word::Type)),
    &Plan::Go(Stage::STAGE_123),
);

static STAGE_125: Plan = Plan::Reads(
    &Form::Rule(Rule::FOREIGN_SIGNATURE),
    &Plan::Go(Stage::STAGE_117),
);

static STAGE_126: Plan = Plan::Turns(
    Look::Or(
        &Look::Word(Word::Const),
        &Look::Or(
            &Look::Word(Word::Async),
            &Look::Or(&Look::Word(Word::Extern), &Look::Word(Word::Fn)),
        ),
    ),
    &Plan::Go(Stage::STAGE_125),
    &Plan::Go(Stage::STAGE_5),
);

static STAGE_127: Plan = Plan::Turns(
    Look::Word(Word::Type),
    &Plan::Go(Stage::STAGE_124),
    &Plan::Turns(
        Look::Word(Word::Static),
        &Plan::Go(Stage::STAGE_116),
        &Plan::Turns(
            Look::Word(Word::Unsafe),
            &Plan::Go(Stage::STAGE_119),
            &Plan::Go(Stage::STAGE_126),
        ),
    ),
);

static STAGE_128: Plan = Plan::Rest(&Form::When(
    Look::Word(Word::SelfType),
    &Form::Never(Fault::Unexpected),
    &Form::Part(Part::PLANNED_73),
));

static STAGE_129: Plan = Plan::Turns(
    Look::Or(
        &Look::Word(Word::Const),
        &Look::Or(
            &Look::Word(Word::Async),
            &Look::Or(&Look::Word(Word::Extern), &Look::Word(Word::Fn)),
        ),
    ),
    &Plan::Go(Stage::STAGE_125),
    &Plan::Go(Stage::STAGE_128),
);

static STAGE_130: Plan = Plan::Turns(
    Look::Word(Word::Type),
    &Plan::Go(Stage::STAGE_124),
    &Plan::Turns(
        Look::Word(Word::Static),
        &Plan::Go(Stage::STAGE_116),
        &Plan::Turns(
            Look::Word(Word::Unsafe),
            &Plan::Go(Stage::STAGE_119),
            &Plan::Go(Stage::STAGE_129),
        ),
    ),
);

static STAGE_131: Plan = Plan::Turns(
    Look::Word(Word::Safe),
    &Plan::Turns(
        Look::BeforeMacro,
        &Plan::Go(Stage::STAGE_128),
        &Plan::Turns(
            Look::BeforeColons,
            &Plan::Go(Stage::STAGE_128),
            &Plan::Go(Stage::STAGE_119),
        ),
    ),
    &Plan::Go(Stage::STAGE_130),
);

static STAGE_132: Plan = Plan::Turns(
    Look::Or(&Look::Word(Word::Pub), &Look::EmptyGroup),
    &Plan::Reads(
        &Form::Rule(Rule::VISIBILITY),
        &Plan::Turns(
            Look::Word(Word::Safe),
            &Plan::Go(Stage::STAGE_119),
            &Plan::Go(Stage::STAGE_127),
        ),
    ),
    &Plan::Go(Stage::STAGE_131),
);

static STAGE_133: Plan = Plan::Turns(
    Look::Item,
    &Plan::Then(&Plan::Go(Stage::STAGE_93), &Form::Rule(Rule::STATEMENTS)),
    &Plan::Rest(&Form::Then(&Form::Rule(Rule::STATEMENT_REST), &Form::Empty)),
);

static STAGE_134: Plan = Plan::Reads(
    &Form::Token(Token::Word(Word::Use)),
    &Plan::Turns(
        Look::Group(Delimiter::Brace),
        &Plan::Rooted(&Plan::Go(Stage::STAGE_5), &Plan::Go(Stage::STAGE_6)),
        &Plan::Go(Stage::STAGE_19),
    ),
);

static STAGE_135: Plan = Plan::Reads(
    &Form::Rule(Rule::GENERICS),
    &Plan::Turns(
        Look::Word(Word::Where),
        &Plan::Reads(&Form::Rule(Rule::WHERE_CLAUSE), &Plan::Go(Stage::STAGE_8)),
        &Plan::Go(Stage::STAGE_10),
    ),
);

static STAGE_136: Plan = Plan::Turns(
    Look::Or(&Look::PathWord, &Look::Mark(Mark::PathSep)),
    &Plan::Go(Stage::STAGE_71),
    &Plan::Rest(&Form::Then(
        &Form::Rule(Rule::TYPE),
        &Form::Then(&Form::Rule(Rule::IMPL_BODY), &Form::Empty),
    )),
);

static STAGE_137: Plan = Plan::Turns(
    Look::Mark(Mark::Not),
    &Plan::Reads(
        &Form::Mark(Mark::Not),
        &Plan::Turns(
            Look::Group(Delimiter::Brace),
            &Plan::Go(Stage::STAGE_66),
            &Plan::Go(Stage::STAGE_68),
        ),
    ),
    &Plan::Go(Stage::STAGE_136),
);

static STAGE_138: Plan = Plan::Reads(
    &Form::When(
        Look::Word(Word::Unsafe),
        &Form::Token(Token::Word(Word::Unsafe)),
        &Form::Empty,
    ),
    &Plan::Reads(
        &Form::Token(Token::Word(Word::Impl)),
        &Plan::Lists(&Plan::Led(&Plan::Go(Stage::STAGE_137))),
    ),
);

/// How the plan begins.
#[tactic(auto, unfolding(crate::specs::Names::rule_of, crate::specs::Parts::part_form, crate::specs::Stages::stage_course))]
pub(crate) fn begin_of(planned: Planned) -> &'static Plan
    ensures { course_of result.now ≡ planned_course planned }
{
    match planned {
        Planned::Item => &ITEM,
        Planned::TraitItem => &TRAIT_ITEM,
        Planned::ImplItem => &IMPL_ITEM,
        Planned::ForeignItem => &FOREIGN_ITEM,
        Planned::CrateMacro => &CRATE_MACRO,
        Planned::DeriveInput => &DERIVE_INPUT,
        Planned::Statements => &STATEMENTS,
        Planned::Statement => &STATEMENT,
        Planned::UseItemRest => &USE_ITEM_REST,
        Planned::TypeItemRest => &TYPE_ITEM_REST,
        Planned::ImplDefinitionRest => &IMPL_DEFINITION_REST,
    }
}

/// The plan of the stage.
#[tactic(auto, unfolding(crate::specs::Stages::stage_course))]
pub(crate) fn plan_of(stage: Stage) -> &'static Plan
    ensures { course_of result.now ≡ stage_course stage }
{
    match stage.series {
        Series::Series1 => series_1(stage.place),
        Series::Series2 => series_2(stage.place),
        Series::Series3 => series_3(stage.place),
        Series::Series4 => series_4(stage.place),
        Series::Series5 => series_5(stage.place),
        Series::Series6 => series_6(stage.place),
    }
}

/// The plan of the stage at this place.
#[tactic(auto, using(std::proofs::lemmas::List::get_or_past), unfolding(crate::specs::Names::rule_of, crate::specs::Parts::part_form, crate::specs::Stages::stage_course))]
fn series_1(place: u8) -> &'static Plan
    ensures { course_of result.now ≡ series_1_course place }
{
    match place {
        0 => &STAGE_1,
        1 => &STAGE_2,
        2 => &STAGE_3,
        3 => &STAGE_4,
        4 => &STAGE_5,
        5 => &STAGE_6,
        6 => &STAGE_7,
        7 => &STAGE_8,
        8 => &STAGE_9,
        9 => &STAGE_10,
        10 => &STAGE_11,
        11 => &STAGE_12,
        12 => &STAGE_13,
        13 => &STAGE_14,
        14 => &STAGE_15,
        15 => &STAGE_16,
        16 => &STAGE_17,
        17 => &STAGE_18,
        18 => &STAGE_19,
        19 => &STAGE_20,
        20 => &STAGE_21,
        21 => &STAGE_22,
        _ => &STAGE_23,
    }
}

/// The plan of the stage at this place.
#[tactic(auto, using(std::proofs::lemmas::List::get_or_past), unfolding(crate::specs::Names::rule_of, crate::specs::Parts::part_form, crate::specs::Stages::stage_course))]
fn series_2(place: u8) -> &'static Plan
    ensures { course_of result.now ≡ series_2_course place }
{
    match place {
        0 => &STAGE_24,
        1 => &STAGE_25,
        2 => &STAGE_26,
        3 => &STAGE_27,
        4 => &STAGE_28,
        5 => &STAGE_29,
        6 => &STAGE_30,
        7 => &STAGE_31,
        8 => &STAGE_32,
        9 => &STAGE_33,
        10 => &STAGE_34,
        11 => &STAGE_35,
        12 => &STAGE_36,
        13 => &STAGE_37,
        14 => &STAGE_38,
        15 => &STAGE_39,
        16 => &STAGE_40,
        17 => &STAGE_41,
        18 => &STAGE_42,
        19 => &STAGE_43,
        20 => &STAGE_44,
        21 => &STAGE_45,
        _ => &STAGE_46,
    }
}

/// The plan of the stage at this place.
#[tactic(auto, using(std::proofs::lemmas::List::get_or_past), unfolding(crate::specs::Names::rule_of, crate::specs::Parts::part_form, crate::specs::Stages::stage_course))]
fn series_3(place: u8) -> &'static Plan
    ensures { course_of result.now ≡ series_3_course place }
{
    match place {
        0 => &STAGE_47,
        1 => &STAGE_48,
        2 => &STAGE_49,
        3 => &STAGE_50,
        4 => &STAGE_51,
        5 => &STAGE_52,
        6 => &STAGE_53,
        7 => &STAGE_54,
        8 => &STAGE_55,
        9 => &STAGE_56,
        10 => &STAGE_57,
        11 => &STAGE_58,
        12 => &STAGE_59,
        13 => &STAGE_60,
        14 => &STAGE_61,
        15 => &STAGE_62,
        16 => &STAGE_63,
        17 => &STAGE_64,
        18 => &STAGE_65,
        19 => &STAGE_66,
        20 => &STAGE_67,
        21 => &STAGE_68,
        _ => &STAGE_69,
    }
}

/// The plan of the stage at this place.
#[tactic(auto, using(std::proofs::lemmas::List::get_or_past), unfolding(crate::specs::Names::rule_of, crate::specs::Parts::part_form, crate::specs::Stages::stage_course))]
fn series_4(place: u8) -> &'static Plan
    ensures { course_of result.now ≡ series_4_course place }
{
    match place {
        0 => &STAGE_70,
        1 => &STAGE_71,
        2 => &STAGE_72,
        3 => &STAGE_73,
        4 => &STAGE_74,
        5 => &STAGE_75,
        6 => &STAGE_76,
        7 => &STAGE_77,
        8 => &STAGE_78,
        9 => &STAGE_79,
        10 => &STAGE_80,
        11 => &STAGE_81,
        12 => &STAGE_82,
        13 => &STAGE_83,
        14 => &STAGE_84,
        15 => &STAGE_85,
        16 => &STAGE_86,
        17 => &STAGE_87,
        18 => &STAGE_88,
        19 => &STAGE_89,
        20 => &STAGE_90,
        21 => &STAGE_91,
        _ => &STAGE_92,
    }
}

/// The plan of the stage at this place.
#[tactic(auto, using(std::proofs::lemmas::List::get_or_past), unfolding(crate::specs::Names::rule_of, crate::specs::Parts::part_form, crate::specs::Stages::stage_course))]
fn series_5(place: u8) -> &'static Plan
    ensures { course_of result.now ≡ series_5_course place }
{
    match place {
        0 => &STAGE_93,
        1 => &STAGE_94,
        2 => &STAGE_95,
        3 => &STAGE_96,
        4 => &STAGE_97,
        5 => &STAGE_98,
        6 => &STAGE_99,
        7 => &STAGE_100,
        8 => &STAGE_101,
        9 => &STAGE_102,
        10 => &STAGE_103,
        11 => &STAGE_104,
        12 => &STAGE_105,
        13 => &STAGE_106,
        14 => &STAGE_107,
        15 => &STAGE_108,
        16 => &STAGE_109,
        17 => &STAGE_110,
        18 => &STAGE_111,
        19 => &STAGE_112,
        20 => &STAGE_113,
        21 => &STAGE_114,
        _ => &STAGE_115,
    }
}

/// The plan of the stage at this place.
#[tactic(auto, using(std::proofs::lemmas::List::get_or_past), unfolding(crate::specs::Names::rule_of, crate::specs::Parts::part_form, crate::specs::Stages::stage_course))]
fn series_6(place: u8) -> &'static Plan
    ensures { course_of result.now ≡ series_6_course place }
{
    match place {
        0 => &STAGE_116,
        1 => &STAGE_117,
        2 => &STAGE_118,
        3 => &STAGE_119,
        4 => &STAGE_120,
        5 => &STAGE_121,
        6 => &STAGE_122,
        7 => &STAGE_123,
        8 => &STAGE_124,
        9 => &STAGE_125,
        10 => &STAGE_126,
        11 => &STAGE_127,
        12 => &STAGE_128,
        13 => &STAGE_129,
        14 => &STAGE_130,
        15 => &STAGE_131,
        16 => &STAGE_132,
        17 => &STAGE_133,
        18 => &STAGE_134,
        19 => &STAGE_135,
        20 => &STAGE_136,
        21 => &STAGE_137,
        _ => &STAGE_138,
    }
}

/// The form of the part at this place.
#[tactic(auto, using(std::proofs::lemmas::List::get_or_past), unfolding(crate::specs::Names::rule_of, crate::specs::Parts::part_form))]
pub(crate) fn planned_1(place: u8) -> &'static Form
    ensures { parse_form (grammar_of result.now) ≡ parse_form (planned_1_part place) }
{
    match place {
        0 => &PLANNED_1,
        1 => &PLANNED_2,
        2 => &PLANNED_3,
        3 => &PLANNED_4,
        4 => &PLANNED_5,
        5 => &PLANNED_6,
        6 => &PLANNED_7,
        7 => &PLANNED_8,
        8 => &PLANNED_9,
        9 => &PLANNED_10,
        10 => &PLANNED_11,
        11 => &PLANNED_12,
        12 => &PLANNED_13,
        13 => &PLANNED_14,
        14 => &PLANNED_15,
        15 => &PLANNED_16,
        _ => &PLANNED_17,
    }
}

/// The form of the part at this place.
#[tactic(auto, using(std::proofs::lemmas::List::get_or_past), unfolding(crate::specs::Names::rule_of, crate::specs::Parts::part_form))]
pub(crate) fn planned_2(place: u8) -> &'static Form
    ensures { parse_form (grammar_of result.now) ≡ parse_form (planned_2_part place) }
{
    match place {
        0 => &PLANNED_18,
        1 => &PLANNED_19,
        2 => &PLANNED_20,
        3 => &PLANNED_21,
        4 => &PLANNED_22,
        5 => &PLANNED_23,
        6 => &PLANNED_24,
        7 => &PLANNED_25,
        8 => &PLANNED_26,
        9 => &PLANNED_27,
        10 => &PLANNED_28,
        11 => &PLANNED_29,
        12 => &PLANNED_30,
        13 => &PLANNED_31,
        14 => &PLANNED_32,
        15 => &PLANNED_33,
        _ => &PLANNED_34,
    }
}

/// The form of the part at this place.
#[tactic(auto, using(std::proofs::lemmas::List::get_or_past), unfolding(crate::specs::Names::rule_of, crate::specs::Parts::part_form))]
pub(crate) fn planned_3(place: u8) -> &'static Form
    ensures { parse_form (grammar_of result.now) ≡ parse_form (planned_3_part place) }
{
    match place {
        0 => &PLANNED_35,
        1 => &PLANNED_36,
        2 => &PLANNED_37,
        3 => &PLANNED_38,
        4 => &PLANNED_39,
        5 => &PLANNED_40,
        6 => &PLANNED_41,
        7 => &PLANNED_42,
        8 => &PLANNED_43,
        9 => &PLANNED_44,
        10 => &PLANNED_45,
        11 => &PLANNED_46,
        12 => &PLANNED_47,
        13 => &PLANNED_48,
        14 => &PLANNED_49,
        15 => &PLANNED_50,
        _ => &PLANNED_51,
    }
}

/// The form of the part at this place.
#[tactic(auto, using(std::proofs::lemmas::List::get_or_past), unfolding(crate::specs::Names::rule_of, crate::specs::Parts::part_form))]
pub(crate) fn planned_4(place: u8) -> &'static Form
    ensures { parse_form (grammar_of result.now) ≡ parse_form (planned_4_part place) }
{
    match place {
        0 => &PLANNED_52,
        1 => &PLANNED_53,
        2 => &PLANNED_54,
        3 => &PLANNED_55,
        4 => &PLANNED_56,
        5 => &PLANNED_57,
        6 => &PLANNED_58,
        7 => &PLANNED_59,
        8 => &PLANNED_60,
        9 => &PLANNED_61,
        10 => &PLANNED_62,
        11 => &PLANNED_63,
        12 => &PLANNED_64,
        13 => &PLANNED_65,
        14 => &PLANNED_66,
        15 => &PLANNED_67,
        _ => &PLANNED_68,
    }
}

/// The form of the part at this place.
#[tactic(auto, using(std::proofs::lemmas::List::get_or_past), unfolding(crate::specs::Names::rule_of, crate::specs::Parts::part_form))]
pub(crate) fn planned_5(place: u8) -> &'static Form
    ensures { parse_form (grammar_of result.now) ≡ parse_form (planned_5_part place) }
{
    match place {
        0 => &PLANNED_69,
        1 => &PLANNED_70,
        2 => &PLANNED_71,
        3 => &PLANNED_72,
        4 => &PLANNED_73,
        5 => &PLANNED_74,
        6 => &PLANNED_75,
        7 => &PLANNED_76,
        8 => &PLANNED_77,
        9 => &PLANNED_78,
        10 => &PLANNED_79,
        11 => &PLANNED_80,
        12 => &PLANNED_81,
        13 => &PLANNED_82,
        14 => &PLANNED_83,
        _ => &PLANNED_84,
    }
}
