//! What the rows of a section are asked.

/// What is asked of a row.
#[derive(Clone, Copy)]
pub(crate) enum Question {
    /// Of the tree that a text is.
    OfTree(TreeQuestion),
    /// Of canonical prints.
    OfForm(FormQuestion),
    /// What a tree is made of.
    Parts,
    /// The fields of a struct.
    Fields,
    /// The faults of a tree's modifiers.
    Faults,
}

/// What is asked of a text as a tree.
#[derive(Clone, Copy)]
pub(crate) enum TreeQuestion {
    /// What shows its tree.
    Tree,
    /// Its print.
    Print,
    /// Where the whole of it is refused.
    Refused,
    /// What is left behind a tree at its front.
    Left,
    /// What is left where no tree stands at its front.
    LeftRefused,
    /// Whether it and a second one are equal trees.
    Compared,
}

/// What is asked of a text by its canonical print.
#[derive(Clone, Copy)]
pub(crate) enum FormQuestion {
    /// That print.
    Canonical,
    /// Where it has none.
    Refused,
    /// Whether it and a second one have the same form.
    Compared,
}

/// The first line of a section, behind its comments.
#[derive(Clone, Copy)]
pub(crate) struct Heading<'a> {
    /// The number of the line.
    pub(crate) line: usize,
    pub(crate) question: Question,
    /// What is to be answered, where the second line of a row is another text.
    pub(crate) verdict: Option<&'static str>,
    /// The words of the kinds, with a space between them.
    pub(crate) kinds: &'a str,
}

/// A question, and what is to be answered where that isn't the second line of a row.
type Asked = (Question, Option<&'static str>);

impl<'a> Heading<'a> {
    /// The heading that the line is, if it is one.
    pub(crate) fn from_line(line: usize, text: &'a str) -> Option<Heading<'a>> {
        let ((question, verdict), kinds) = split(text)?;
        Some(Heading {
            line,
            question,
            verdict,
            kinds,
        })
    }
}

/// The question, and what stands behind it.
fn split(text: &str) -> Option<(Asked, &str)> {
    if let Some(kinds) = text.strip_prefix("left refused ") {
        return Some(((Question::OfTree(TreeQuestion::LeftRefused), None), kinds));
    }
    if let Some(kinds) = text.strip_prefix("canonical refused ") {
        return Some(((Question::OfForm(FormQuestion::Refused), None), kinds));
    }
    let (word, kinds) = text.split_once(' ')?;
    Some((question_of(word)?, kinds))
}

/// The question of one word.
fn question_of(word: &str) -> Option<Asked> {
    match word {
        "tree" => Some((Question::OfTree(TreeQuestion::Tree), None)),
        "print" => Some((Question::OfTree(TreeQuestion::Print), None)),
        "refused" => Some((Question::OfTree(TreeQuestion::Refused), None)),
        "left" => Some((Question::OfTree(TreeQuestion::Left), None)),
        "canonical" => Some((Question::OfForm(FormQuestion::Canonical), None)),
        "parts" => Some((Question::Parts, None)),
        "fields" => Some((Question::Fields, None)),
        "faults" => Some((Question::Faults, None)),
        _ => question_of_two(word),
    }
}

/// The question of one word about two texts.
fn question_of_two(word: &str) -> Option<Asked> {
    match word {
        "equal" => Some((Question::OfTree(TreeQuestion::Compared), Some("equal"))),
        "differs" => Some((Question::OfTree(TreeQuestion::Compared), Some("differs"))),
        "alike" => Some((Question::OfForm(FormQuestion::Compared), Some("alike"))),
        "unlike" => Some((Question::OfForm(FormQuestion::Compared), Some("unlike"))),
        _ => None,
    }
}
