//! Cuts a text into its tokens.

ghost use Rattle.std.specs.Prelude.{◌≡◌, ◌<◌, ◌≤◌, length, true, IfOk, IfSome, MatchOption};
ghost use Rattle.std.specs.List.{prefix_len};
ghost use Rattle.std.specs.Str.Parse.{digits_value};
ghost use Rattle.domino_tree.specs.Grammar.{is_word_byte};
ghost use Rattle.domino_syntax.specs.Tokens as spec;
ghost use Rattle.domino_syntax.specs.Tokens.{Moves};
ghost use Rattle.domino_syntax.specs.Cutting.{Cuts};

use crate::fault::TextFault;
use crate::signs::SignIndex;
use domino_tree::{Keyword, Token};
use mp5_words::Name;
use std::alloc::{AllocError, Global};

/// What stands at the front of a text.
#[derive(Drop)]
enum Piece {
    /// The text is empty.
    End,
    /// White space or a comment of so many bytes.
    Skip(usize),
    /// A token of so many bytes.
    Token(Token, usize),
    /// No piece begins here.
    Bad,
}

fn is_white(b: u8) -> bool
    ensures { result ≡ spec.is_white b }
{
    b == b' ' || (9 <= b && b <= 13)
}

fn is_word_byte(b: u8) -> bool
    ensures { result ≡ is_word_byte b }
{
    b.is_ascii_alphanumeric() || b == b'_'
}

/// How many bytes the word at the front has.
fn word_len(text: &[u8]) -> usize
    ensures value { result ≡ prefix_len is_word_byte text.now }
    ensures within { result ≤ length text.now }
{
    let mut len = 0;
    while len < text.len() && is_word_byte(text[len]) {
        len += 1;
    }
    len
}

/// How many bytes the line at the front has, without its end.
fn line_len(text: &[u8]) -> usize
    ensures value { result ≡ prefix_len spec.in_line text.now }
    ensures within { result ≤ length text.now }
{
    let mut len = 0;
    while len < text.len() && text[len] != b'\n' {
        len += 1;
    }
    len
}

fn all_decimal(word: &[u8]) -> bool
    ensures { result ≡ spec.are_digits 10 word.now }
{
    word.iter().all(|b| char::from(*b).is_digit(10))
}

fn all_hexadecimal(word: &[u8]) -> bool
    ensures { result ≡ spec.are_digits 16 word.now }
{
    word.iter().all(|b| char::from(*b).is_digit(16))
}

/// 0, or decimal digits that don't begin with 0.
fn is_decimal(word: &[u8]) -> bool
    ensures { result ≡ spec.is_decimal word.now }
{
    match word {
        [] => false,
        [b, rest @ ..] => all_decimal(word) && ((*b == b'0' && rest.is_empty()) || b'1' <= *b),
    }
}

/// `0x` and one to eight hexadecimal digits.
fn is_hexadecimal(word: &[u8]) -> bool
    ensures { result ≡ spec.is_hexadecimal word.now }
{
    match word {
        [a, b, digits @ ..] => {
            (*a == b'0' && *b == b'x')
                && ((1 <= digits.len() && digits.len() <= 8) && all_hexadecimal(digits))
        }
        _ => false,
    }
}

/// The number that digits write, or `None` where it needs more than 32 bits.
fn value_of(radix: u32, digits: &[u8]) -> Option<u32>
    requires radix { (2 ≤ radix) × (radix ≤ 36) }
    requires digits { spec.are_digits radix digits.now ≡ true }
    ensures { MatchOption result
        (4294967295 < digits_value radix digits.now)
        (λ n. n ≡ digits_value radix digits.now) }
{
    let mut value: u32 = 0;
    for digit in digits {
        let more = char::from(*digit).to_digit(radix)?;
        value = value.checked_mul(radix)?.checked_add(more)?;
    }
    Some(value)
}

#[tactic(auto, unfolding(crate::specs::Tokens::bounded))]
fn numeral(radix: u32, digits: &[u8]) -> Option<Token>
    requires radix { (2 ≤ radix) × (radix ≤ 36) }
    requires digits { spec.are_digits radix digits.now ≡ true }
    ensures { result ≡ spec.bounded (digits_value radix digits.now) }
{
    match value_of(radix, digits) {
        None => None,
        Some(value) => Some(Token::Number(value.cast_signed())),
    }
}

fn number(word: &[u8]) -> Option<Token>
    ensures { result ≡ spec.number word.now }
{
    if is_decimal(word) {
        numeral(10, word)
    } else if is_hexadecimal(word) {
        numeral(16, &word[2..])
    } else {
        None
    }
}

/// The reserved name that a word is.
#[tactic(auto, unfolding(crate::specs::Tokens::name))]
fn keyword(word: &[u8]) -> Option<Keyword>
    ensures { MatchOption result
        (spec.name word.now ≡ Token.Name word.now)
        (λ reserved. spec.name word.now ≡ Token.Keyword reserved) }
{
    if word == b"struct".as_slice() {
        Some(Keyword::Struct)
    } else if word == b"int".as_slice() {
        Some(Keyword::Int)
    } else if word == b"void".as_slice() {
        Some(Keyword::Void)
    } else if word == b"if".as_slice() {
        Some(Keyword::If)
    } else if word == b"else".as_slice() {
        Some(Keyword::Else)
    } else {
        None
    }
}

fn name(alloc: Global, word: &[u8]) -> Result<Token, AllocError>
    ensures { IfOk result (λ token. token ≡ spec.name word.now) }
{
    match keyword(word) {
        Some(reserved) => Ok(Token::Keyword(reserved)),
        None => Ok(Token::Name(Name::new(Vec::from_slice(alloc, word)?))),
    }
}

/// The token that a whole word is, or `None` where it is none.
fn word_token(alloc: Global, word: &[u8]) -> Result<Option<Token>, AllocError>
    ensures { IfOk result (λ token. token ≡ spec.word_token word.now) }
{
    match word {
        [] => Ok(None),
        [b, ..] if b.is_ascii_digit() => Ok(number(word)),
        _ => Ok(Some(name(alloc, word)?)),
    }
}

/// The word at the front of a text that begins with a byte of a word.
fn word_at(alloc: Global, text: &[u8]) -> Result<Piece, AllocError>
    requires { 1 ≤ prefix_len is_word_byte text.now }
    ensures value { IfOk result (λ found. found ≡ spec.piece_from
        (prefix_len is_word_byte text.now)
        (spec.word_token (spec.word_at text.now))) }
    ensures within { IfOk result (λ found. Moves (length text.now) found) }
{
    let len = word_len(text);
    match word_token(alloc, &text[..len])? {
        None => Ok(Piece::Bad),
        Some(token) => Ok(Piece::Token(token, len)),
    }
}

/// The longest sign at the front of a text.
fn sign_at(signs: &SignIndex, text: &[u8]) -> Piece
    ensures value { result ≡ spec.sign_at text.now }
    ensures within { Moves (length text.now) result }
{
    match signs.first_sign(text) {
        None => Piece::Bad,
        Some(sign) => Piece::Token(Token::Sign(sign), sign.text().len()),
    }
}

fn begins_with_slash(text: &[u8]) -> bool
    ensures { result ≡ spec.begins_with_slash text.now }
{
    match text {
        [] => false,
        [b, ..] => *b == b'/',
    }
}

/// How many bytes a text has up to the end of its first `*/`, or `None` where it has none.
fn closing(text: &[u8]) -> Option<usize>
    ensures value { result ≡ spec.closing text.now }
    ensures within { IfSome result (λ end. end ≤ length text.now) }
{
    let mut at = 0;
    let mut rest = text;
    while let [b, later @ ..] = rest {
        if *b == b'*' && begins_with_slash(later) {
            return Some(at + 2);
        }
        at += 1;
        rest = later;
    }
    None
}

/// What begins with `/`: a comment or a sign.
fn slash_at(signs: &SignIndex, text: &[u8]) -> Piece
    ensures value { result ≡ spec.slash_at text.now }
    ensures within { Moves (length text.now) result }
{
    match text {
        [_, b'*', rest @ ..] => match closing(rest) {
            None => Piece::Bad,
            Some(end) => Piece::Skip(end + 2),
        },
        [_, b'/', rest @ ..] => Piece::Skip(line_len(rest) + 2),
        _ => sign_at(signs, text),
    }
}

/// What begins with `#`: `#define`, or `#include` with the rest of its line.
fn hash_at(text: &[u8]) -> Piece
    ensures value { result ≡ spec.hash_at text.now }
    ensures within { Moves (length text.now) result }
{
    match text {
        [] => Piece::Bad,
        [_, rest @ ..] => {
            let word = &rest[..word_len(rest)];
            if word == b"define".as_slice() {
                Piece::Token(Token::Define, 7)
            } else if word == b"include".as_slice() {
                Piece::Skip(line_len(rest) + 1)
            } else {
                Piece::Bad
            }
        }
    }
}

/// The piece at the front of a text.
#[tactic(auto, unfolding(crate::specs::Tokens::piece))]
fn piece_at(alloc: Global, signs: &SignIndex, text: &[u8]) -> Result<Piece, AllocError>
    ensures value { IfOk result (λ found. found ≡ spec.piece text.now) }
    ensures within { IfOk result (λ found. Moves (length text.now) found) }
{
    match text {
        [] => Ok(Piece::End),
        [b, ..] => {
            if is_white(*b) {
                Ok(Piece::Skip(1))
            } else if is_word_byte(*b) {
                word_at(alloc, text)
            } else if *b == b'#' {
                Ok(hash_at(text))
            } else if *b == b'/' {
                Ok(slash_at(signs, text))
            } else {
                Ok(sign_at(signs, text))
            }
        }
    }
}

/// The tokens of a text, or the first byte where no token begins.
pub(crate) fn tokens_of(alloc: Global, text: &[u8]) -> Result<Vec<Token>, TextFault>
    requires { length text.now ≤ 4294967295 }
    ensures { Cuts (λ list. list.items) text.now result }
{
    let signs = SignIndex::new(alloc)?;
    let mut tokens = Vec::new(alloc);
    let mut rest = text;
    loop {
        match piece_at(alloc, &signs, rest)? {
            Piece::End => return Ok(tokens),
            Piece::Skip(len) => rest = &rest[len..],
            Piece::Token(token, len) => {
                tokens.push(token)?;
                rest = &rest[len..];
            }
            Piece::Bad => return Err(TextFault::BadToken((text.len() - rest.len()) as u32)),
        }
    }
}

#[cfg(test)]
mod tests {
    use super::*;
    use std::test::Fail;

    /// The tokens of a short text, each as a text of its own behind a space, with names in quotes, or the
    /// place where no token begins.
    fn shown(alloc: Global, text: &str) -> Result<String, Fail> {
        let bytes = text.as_bytes();
        let mut out = String::new(alloc);
        match tokens_of(alloc, &bytes[..bytes.len().min(1000)]) {
            Ok(tokens) => {
                for token in tokens.iter() {
                    match token {
                        Token::Name(name) => {
                            out.push_str(" '")?;
                            for b in name.bytes() {
                                out.push(char::from(*b))?;
                            }
                            out.push('\'')?;
                        }
                        Token::Keyword(reserved) => write!(out, " {reserved:?}")?,
                        Token::Define => out.push_str(" #define")?,
                        Token::Number(value) => write!(out, " {value}")?,
                        Token::Sign(sign) => write!(out, " {sign:?}")?,
                    }
                }
            }
            Err(TextFault::BadToken(at)) => write!(out, "bad at {at}")?,
            Err(_) => out.push_str("no answer")?,
        }
        Ok(out)
    }

    #[test]
    fn cuts_texts(rt: HostRuntime) -> Result<(), Fail> {
        for (text, want) in [
            ("", ""),
            (" \t\n\u{b}\u{c}\r", ""),
            ("struct void if else", " Struct Void If Else"),
            ("ints _if else1 Int", " 'ints' '_if' 'else1' 'Int'"),
            ("#define N 4", " #define 'N' 4"),
            ("#define/**/N", " #define 'N'"),
            ("#include <a.h>\nint", " Int"),
            ("int #include x y\n z;", " Int 'z' Semicolon"),
            ("#include", ""),
            ("a/* b */c/***/d/*/*/e", " 'a' 'c' 'd' 'e'"),
            ("a//b\n/c", " 'a' Slash 'c'"),
            ("x // y\r z", " 'x'"),
            ("0 0x0 0xFf 0xffffffff", " 0 0 255 -1"),
            ("0x7fffffff 2147483648", " 2147483647 -2147483648"),
            ("4294967295 1.50", " -1 1 Dot 50"),
            ("a<<=b", " 'a' ShiftLeft Assign 'b'"),
            (
                ">>>= <<< <=",
                " ShiftRight GreaterEqual ShiftLeft Less LessEqual",
            ),
            ("=== !== >", " Equal Assign NotEqual Assign Greater"),
            ("&&& |||", " AndAnd Ampersand OrOr Bar"),
            (
                "+-*/%^!~",
                " Plus Minus Star Slash Percent Caret Bang Tilde",
            ),
            ("?:;,.", " Question Colon Semicolon Comma Dot"),
            (
                "[](){}",
                " OpenSquare CloseSquare OpenRound CloseRound OpenCurly CloseCurly",
            ),
            ("4294967296", "bad at 0"),
            ("18446744073709551617", "bad at 0"),
            ("a 00", "bad at 2"),
            ("07", "bad at 0"),
            ("12ab", "bad at 0"),
            ("x=1_0", "bad at 2"),
            ("0x", "bad at 0"),
            ("0x123456789", "bad at 0"),
            ("0x000000001", "bad at 0"),
            ("0X1", "bad at 0"),
            ("0xg", "bad at 0"),
            ("a/*/", "bad at 1"),
            ("/* *", "bad at 0"),
            ("#definex", "bad at 0"),
            ("y #include1", "bad at 2"),
            ("# define", "bad at 0"),
            ("int /* a */ @", "bad at 12"),
            ("a\0", "bad at 1"),
            ("b\u{e9}", "bad at 1"),
        ] {
            assert_eq!(rt; shown(rt.alloc(), text)?.as_str(), want, "at {text}");
        }
        Ok(())
    }
}
