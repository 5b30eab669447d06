use mp5_words::Name;

/// The reserved names.
#[derive(Clone, Copy, Debug, PartialEq, Eq)]
pub enum Keyword {
    Struct,
    Int,
    Void,
    If,
    Else,
}

/// The signs that the grammar uses.
#[derive(Clone, Copy, Debug, PartialEq, Eq)]
pub enum Sign {
    /// `+`
    Plus,
    /// `-`
    Minus,
    /// `*`
    Star,
    /// `/`
    Slash,
    /// `%`
    Percent,
    /// `<<`
    ShiftLeft,
    /// `>>`
    ShiftRight,
    /// `<`
    Less,
    /// `<=`
    LessEqual,
    /// `>`
    Greater,
    /// `>=`
    GreaterEqual,
    /// `==`
    Equal,
    /// `!=`
    NotEqual,
    /// `&`
    Ampersand,
    /// `^`
    Caret,
    /// `|`
    Bar,
    /// `&&`
    AndAnd,
    /// `||`
    OrOr,
    /// `!`
    Bang,
    /// `~`
    Tilde,
    /// `=`
    Assign,
    /// `?`
    Question,
    /// `:`
    Colon,
    /// `;`
    Semicolon,
    /// `,`
    Comma,
    /// `.`
    Dot,
    /// `(`
    OpenRound,
    /// `)`
    CloseRound,
    /// `[`
    OpenSquare,
    /// `]`
    CloseSquare,
    /// `{`
    OpenCurly,
    /// `}`
    CloseCurly,
}

/// What a sign does to the weight of tokens.
#[derive(Clone, Copy, Debug, PartialEq, Eq)]
pub enum Effect {
    /// One more counts: an operator, or `?`.
    Counts,
    /// A bracket opens.
    Opens,
    /// A bracket closes.
    Closes,
    /// A statement or a declaration ends.
    Clears,
    /// Nothing.
    Keeps,
}

/// A token of a program text.
#[derive(Debug, Drop)]
pub enum Token {
    /// A name that isn't reserved.
    Name(Name),
    /// A reserved name.
    Keyword(Keyword),
    /// `#define`
    Define,
    /// A number, as the word with its bits.
    Number(i32),
    /// A sign.
    Sign(Sign),
}
