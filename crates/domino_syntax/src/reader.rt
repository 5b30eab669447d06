//! A cursor over the tokens of a text.

ghost use Rattle.std.specs.Prelude.{◌≡◌, length, IfOk};
ghost use Rattle.domino_tree.specs.Operators.{same_sign};
ghost use Rattle.domino_syntax.specs.Parsers as spec;
ghost use Rattle.domino_syntax.specs.Parsers.{Reads, first};
ghost use Rattle.domino_syntax.specs.ReadingExpressions as expressions;

use crate::operators::{level_of_sign, operator_of_level};
use domino_tree::{Keyword, Sign, Token, operator_before};
use mp5_words::{Name, Op1, Op2};
use std::alloc::{AllocError, AllocFailed, Global};
use std::marker::Model;

/// Why nothing is read.
#[derive(Debug, Drop)]
pub(crate) enum Stop {
    /// No form of the grammar goes on with the next token.
    Syntax,
    /// Memory ran out.
    NoMemory,
}

impl From<AllocError> for Stop {
    ghost use Rattle.domino_syntax.specs.declared.reader.Stop.TheVariants.{NoMemory};

    ghost from_gives = { λ _ e. e ≡ NoMemory };

    fn from(_error: AllocError) -> Stop {
        Stop::NoMemory
    }
}

impl<T: Drop> From<AllocFailed<T>> for Stop {
    ghost use Rattle.domino_syntax.specs.declared.reader.Stop.TheVariants.{NoMemory};

    ghost from_gives = { λ _ e. e ≡ NoMemory };

    fn from(_error: AllocFailed<T>) -> Stop {
        Stop::NoMemory
    }
}

/// The tokens that are left to read, seen as a list.
#[derive(Drop)]
pub(crate) struct Reader<'a> {
    rest: &'a [Token],
    /// The precedence level of the operator between two expressions that comes next, if one does.
    level: Option<usize>,
}

impl<'a> Model for Reader<'a> {
    ghost use Rattle.std.specs.Prelude.{◌≡◌, List};
    ghost use Rattle.domino_tree.specs.declared.token.Token.{Token};
    ghost use Rattle.domino_syntax.specs.Parsers.{first};
    ghost use Rattle.domino_syntax.specs.ReadingExpressions.{next_level};

    ghost Value = { List Token };

    ghost view = { λ reader. reader.rest.now };

    ghost invariant = { λ reader. reader.level ≡ next_level (first reader.rest.now) };
}

/// The precedence level of the operator between two expressions that comes first, if one does.
fn level_of_first(tokens: &[Token]) -> Option<usize>
    ensures { result ≡ expressions.next_level (first tokens.now) }
{
    match tokens {
        [Token::Sign(next), ..] => level_of_sign(*next),
        _ => None,
    }
}

/// A copy of a name.
fn copied(alloc: Global, name: &Name) -> Result<Name, AllocError>
    ensures { IfOk result (λ n. n ≡ name.now) }
{
    Ok(Name::new(Vec::from_slice(alloc, name.bytes())?))
}

fn is_same_sign(a: Sign, b: Sign) -> bool
    ensures { result ≡ same_sign a b }
{
    a == b
}

fn is_same_keyword(a: Keyword, b: Keyword) -> bool
    ensures { result ≡ spec.same_keyword a b }
{
    a == b
}

impl<'a> Reader<'a> {
    pub fn new(tokens: &'a [Token]) -> Reader<'a>
        ensures { result ≡ tokens.now }
    {
        Reader {
            rest: tokens,
            level: level_of_first(tokens),
        }
    }

    /// How many tokens are left.
    pub fn left(&self) -> usize
        ensures { result ≡ length self.now }
    {
        self.rest.len()
    }

    pub fn sees_sign(&self, sign: Sign) -> bool
        ensures { result ≡ spec.sees_sign sign (first self.now) }
    {
        match self.rest {
            [Token::Sign(next), ..] => is_same_sign(*next, sign),
            _ => false,
        }
    }

    pub fn sees_keyword(&self, keyword: Keyword) -> bool
        ensures { result ≡ spec.sees_keyword keyword (first self.now) }
    {
        match self.rest {
            [Token::Keyword(next), ..] => is_same_keyword(*next, keyword),
            _ => false,
        }
    }

    pub fn sees_define(&self) -> bool
        ensures { result ≡ spec.sees_define (first self.now) }
    {
        match self.rest {
            [Token::Define, ..] => true,
            _ => false,
        }
    }

    pub fn sees_name(&self) -> bool
        ensures { result ≡ spec.sees_name (first self.now) }
    {
        match self.rest {
            [Token::Name(_), ..] => true,
            _ => false,
        }
    }

    pub fn sees_number(&self) -> bool
        ensures { result ≡ spec.sees_number (first self.now) }
    {
        match self.rest {
            [Token::Number(_), ..] => true,
            _ => false,
        }
    }

    /// Whether a prefix operator comes next.
    pub fn sees_unary(&self) -> bool
        ensures { result ≡ spec.sees expressions.a_unary (first self.now) }
    {
        match self.rest {
            [Token::Sign(next), ..] => operator_before(*next).is_some(),
            _ => false,
        }
    }

    /// Whether an operator of this precedence level comes next.
    pub fn sees_binary(&self, level: usize) -> bool
        ensures { result ≡ spec.sees (expressions.a_binary level) (first self.now) }
    {
        match self.level {
            Some(next) => next == level,
            None => false,
        }
    }

    /// Goes on to these tokens.
    fn go_to(&mut self, rest: &'a [Token])
        ensures { self.new ≡ rest.now }
    {
        self.rest = rest;
        self.level = level_of_first(rest);
    }

    #[tactic(auto, unfolding(crate::specs::Parsers::sign))]
    pub fn sign(&mut self, sign: Sign) -> Result<(), Stop>
        ensures { Reads (spec.sign sign self.old) result self.new }
    {
        match self.rest {
            [Token::Sign(next), rest @ ..] if is_same_sign(*next, sign) => {
                self.go_to(rest);
                Ok(())
            }
            _ => Err(Stop::Syntax),
        }
    }

    #[tactic(auto, unfolding(crate::specs::Parsers::keyword))]
    pub fn keyword(&mut self, keyword: Keyword) -> Result<(), Stop>
        ensures { Reads (spec.keyword keyword self.old) result self.new }
    {
        match self.rest {
            [Token::Keyword(next), rest @ ..] if is_same_keyword(*next, keyword) => {
                self.go_to(rest);
                Ok(())
            }
            _ => Err(Stop::Syntax),
        }
    }

    #[tactic(auto, unfolding(crate::specs::Parsers::define))]
    pub fn define(&mut self) -> Result<(), Stop>
        ensures { Reads (spec.define self.old) result self.new }
    {
        match self.rest {
            [Token::Define, rest @ ..] => {
                self.go_to(rest);
                Ok(())
            }
            _ => Err(Stop::Syntax),
        }
    }

    #[tactic(auto, unfolding(crate::specs::Parsers::name))]
    pub fn name(&mut self, alloc: Global) -> Result<Name, Stop>
        ensures { Reads (spec.name self.old) result self.new }
    {
        match self.rest {
            [Token::Name(name), rest @ ..] => {
                let name = copied(alloc, name)?;
                self.go_to(rest);
                Ok(name)
            }
            _ => Err(Stop::Syntax),
        }
    }

    #[tactic(auto, unfolding(crate::specs::Parsers::number))]
    pub fn number(&mut self) -> Result<i32, Stop>
        ensures { Reads (spec.number self.old) result self.new }
    {
        match self.rest {
            [Token::Number(number), rest @ ..] => {
                self.go_to(rest);
                Ok(*number)
            }
            _ => Err(Stop::Syntax),
        }
    }

    /// A prefix operator.
    #[tactic(auto, unfolding(crate::specs::ReadingExpressions::unary))]
    pub fn unary(&mut self) -> Result<Op1, Stop>
        ensures { Reads (expressions.unary self.old) result self.new }
    {
        match self.rest {
            [Token::Sign(next), rest @ ..] => match operator_before(*next) {
                Some(op) => {
                    self.go_to(rest);
                    Ok(op)
                }
                None => Err(Stop::Syntax),
            },
            _ => Err(Stop::Syntax),
        }
    }

    /// An operator of this precedence level.
    #[tactic(auto, unfolding(crate::specs::ReadingExpressions::binary))]
    pub fn binary(&mut self, level: usize) -> Result<Op2, Stop>
        ensures { Reads (expressions.binary level self.old) result self.new }
    {
        match self.rest {
            [Token::Sign(next), rest @ ..] => match operator_of_level(level, *next) {
                Some(op) => {
                    self.go_to(rest);
                    Ok(op)
                }
                None => Err(Stop::Syntax),
            },
            _ => Err(Stop::Syntax),
        }
    }

    /// No token is left.
    pub fn end(&self) -> Result<(), Stop>
        ensures { Reads (spec.end self.now) result self.now }
    {
        if self.rest.is_empty() {
            Ok(())
        } else {
            Err(Stop::Syntax)
        }
    }
}
