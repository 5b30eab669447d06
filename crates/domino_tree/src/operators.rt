//! The signs and the operators, each in one table, which the printer, the lexer, the parser and the weight search.

ghost use Rattle.std.specs.Prelude.{◌≡◌};
ghost use Rattle.domino_tree.specs.Operators as spec;

use crate::token::{Effect, Sign};
use mp5_words::{Op1, Op2};

// The table of signs: the bytes of each, and what it does to the weight.
fn sign_row(sign: Sign) -> (&'static str, Effect)
    ensures text { result.0.now ≡ (spec.sign_row sign).text }
    ensures effect { result.1 ≡ (spec.sign_row sign).effect }
{
    match sign {
        Sign::ShiftLeft => ("<<", Effect::Counts),
        Sign::ShiftRight => (">>", Effect::Counts),
        Sign::LessEqual => ("<=", Effect::Counts),
        Sign::GreaterEqual => (">=", Effect::Counts),
        Sign::Equal => ("==", Effect::Counts),
        Sign::NotEqual => ("!=", Effect::Counts),
        Sign::AndAnd => ("&&", Effect::Counts),
        Sign::OrOr => ("||", Effect::Counts),
        Sign::Plus => ("+", Effect::Counts),
        Sign::Minus => ("-", Effect::Counts),
        Sign::Star => ("*", Effect::Counts),
        Sign::Slash => ("/", Effect::Counts),
        Sign::Percent => ("%", Effect::Counts),
        Sign::Less => ("<", Effect::Counts),
        Sign::Greater => (">", Effect::Counts),
        Sign::Ampersand => ("&", Effect::Counts),
        Sign::Caret => ("^", Effect::Counts),
        Sign::Bar => ("|", Effect::Counts),
        Sign::Bang => ("!", Effect::Counts),
        Sign::Tilde => ("~", Effect::Counts),
        Sign::Assign => ("=", Effect::Keeps),
        Sign::Question => ("?", Effect::Counts),
        Sign::Colon => (":", Effect::Keeps),
        Sign::Semicolon => (";", Effect::Clears),
        Sign::Comma => (",", Effect::Keeps),
        Sign::Dot => (".", Effect::Keeps),
        Sign::OpenRound => ("(", Effect::Opens),
        Sign::CloseRound => (")", Effect::Closes),
        Sign::OpenSquare => ("[", Effect::Opens),
        Sign::CloseSquare => ("]", Effect::Closes),
        Sign::OpenCurly => ("{", Effect::Opens),
        Sign::CloseCurly => ("}", Effect::Closes),
    }
}

/// All signs, a longer one before each that begins it.
pub const SIGNS: [Sign; 32] = [
    Sign::ShiftLeft,
    Sign::ShiftRight,
    Sign::LessEqual,
    Sign::GreaterEqual,
    Sign::Equal,
    Sign::NotEqual,
    Sign::AndAnd,
    Sign::OrOr,
    Sign::Plus,
    Sign::Minus,
    Sign::Star,
    Sign::Slash,
    Sign::Percent,
    Sign::Less,
    Sign::Greater,
    Sign::Ampersand,
    Sign::Caret,
    Sign::Bar,
    Sign::Bang,
    Sign::Tilde,
    Sign::Assign,
    Sign::Question,
    Sign::Colon,
    Sign::Semicolon,
    Sign::Comma,
    Sign::Dot,
    Sign::OpenRound,
    Sign::CloseRound,
    Sign::OpenSquare,
    Sign::CloseSquare,
    Sign::OpenCurly,
    Sign::CloseCurly,
];

impl Sign {
    /// The bytes of the sign.
    pub fn text(self) -> &'static str
        ensures { result.now ≡ spec.sign_text self }
    {
        sign_row(self).0
    }

    /// What the sign does to the weight of tokens.
    pub fn effect(self) -> Effect
        ensures { result ≡ (spec.sign_row self).effect }
    {
        sign_row(self).1
    }
}

/// The sign that writes an operator before an expression.
pub fn sign_before(op: Op1) -> Sign
    ensures { result ≡ spec.sign_before op }
{
    match op {
        Op1::Neg => Sign::Minus,
        Op1::Not => Sign::Bang,
        Op1::Flip => Sign::Tilde,
    }
}

const OPERATORS_BEFORE: [Op1; 3] = [Op1::Neg, Op1::Not, Op1::Flip];

/// The operator that a sign writes before an expression.
pub fn operator_before(sign: Sign) -> Option<Op1>
    ensures { result ≡ spec.operator_before sign }
{
    OPERATORS_BEFORE
        .iter()
        .copied()
        .find(|op| is_same_sign(sign_before(*op), sign))
}

// The table of operators between two expressions: the sign that writes each, and its level.
fn operator_row(op: Op2) -> (Sign, usize)
    ensures sign { result.0 ≡ (spec.operator_row op).sign }
    ensures level { result.1 ≡ (spec.operator_row op).level }
{
    match op {
        Op2::Or => (Sign::OrOr, 1),
        Op2::And => (Sign::AndAnd, 2),
        Op2::BitOr => (Sign::Bar, 3),
        Op2::BitXor => (Sign::Caret, 4),
        Op2::BitAnd => (Sign::Ampersand, 5),
        Op2::Eq => (Sign::Equal, 6),
        Op2::Ne => (Sign::NotEqual, 6),
        Op2::Lt => (Sign::Less, 7),
        Op2::Le => (Sign::LessEqual, 7),
        Op2::Gt => (Sign::Greater, 7),
        Op2::Ge => (Sign::GreaterEqual, 7),
        Op2::Shl => (Sign::ShiftLeft, 8),
        Op2::Shr => (Sign::ShiftRight, 8),
        Op2::Add => (Sign::Plus, 9),
        Op2::Sub => (Sign::Minus, 9),
        Op2::Mul => (Sign::Star, 10),
        Op2::Div => (Sign::Slash, 10),
        Op2::Rem => (Sign::Percent, 10),
    }
}

const OPERATORS: [Op2; 18] = [
    Op2::Or,
    Op2::And,
    Op2::BitOr,
    Op2::BitXor,
    Op2::BitAnd,
    Op2::Eq,
    Op2::Ne,
    Op2::Lt,
    Op2::Le,
    Op2::Gt,
    Op2::Ge,
    Op2::Shl,
    Op2::Shr,
    Op2::Add,
    Op2::Sub,
    Op2::Mul,
    Op2::Div,
    Op2::Rem,
];

/// The sign that writes an operator between two expressions.
pub fn sign_between(op: Op2) -> Sign
    ensures { result ≡ spec.sign_of op }
{
    operator_row(op).0
}

/// The level of an operator between two expressions, from the loosest, 1, to the tightest, 10.
pub fn level(op: Op2) -> usize
    ensures { result ≡ spec.level op }
{
    operator_row(op).1
}

/// The operator that a sign writes between two expressions.
pub fn operator_between(sign: Sign) -> Option<Op2>
    ensures { result ≡ spec.operator_between sign }
{
    OPERATORS
        .iter()
        .copied()
        .find(|op| is_same_sign(sign_between(*op), sign))
}

fn is_same_sign(a: Sign, b: Sign) -> bool
    ensures { result ≡ spec.same_sign a b }
{
    a == b
}
