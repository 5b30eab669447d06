//! The weight of tokens: how deep the brackets are, and how many operators stand in them.

ghost use Rattle.std.specs.Prelude.{◌≡◌, ◌<◌, ◌≤◌, ◌∷◌, [], drop, true, MatchBool, MatchOption};
ghost use Rattle.domino_tree.specs.Weight.{after_sign, after_token, cleared, counted};
ghost use Rattle.domino_tree.specs.Weight.{is_light, load};
ghost use Rattle.domino_syntax.specs.Weighing.{IsHeavyAt, Takes};

use crate::limits::MAX_WEIGHT;
use domino_tree::{Effect, Sign, Token};
use std::marker::Model;

/// Counters on a stack, seen as the list of them, the top one first. They and their sum are at most 64
/// together.
#[derive(Drop)]
struct Counters {
    /// The counters, from the top one on; what stands before it is free.
    cells: [u8; MAX_WEIGHT],
    /// The place of the top counter.
    top: usize,
    /// How many counters there are, and their sum.
    load: usize,
}

impl Model for Counters {
    ghost use Rattle.std.specs.Prelude.{◌≡◌, ◌≤◌, ℕ, List, drop, length};
    ghost use Rattle.domino_tree.specs.Weight.{load as load_of};
    ghost use Rattle.domino_syntax.specs.declared.limits.TheConstants.{MAX_WEIGHT};

    ghost Value = { List ℕ };

    ghost view = { λ c. drop c.top c.cells };

    ghost invariant = { λ c.
        (c.top ≤ MAX_WEIGHT)
        × (length c.cells ≡ MAX_WEIGHT)
        × (c.load ≡ load_of (drop c.top c.cells))
        × (c.load ≤ MAX_WEIGHT) };
}

impl Counters {
    fn new() -> Counters
        ensures { result ≡ [] }
    {
        Counters {
            cells: [0; MAX_WEIGHT],
            top: MAX_WEIGHT,
            load: 0,
        }
    }

    /// Whether the counters and their sum are at most 64 together.
    fn is_light(&self) -> bool
        ensures { MatchBool result (load self.now ≤ MAX_WEIGHT) (MAX_WEIGHT < load self.now) }
    {
        self.load <= MAX_WEIGHT
    }

    /// Puts a counter on the stack, where that isn't too heavy.
    fn open(&mut self) -> bool
        ensures { Takes result self.new (0 ∷ self.old) }
    {
        if self.load == MAX_WEIGHT {
            return false;
        }
        self.top -= 1;
        self.cells[self.top] = 0;
        self.load += 1;
        true
    }

    /// Takes the top counter away, where there is one.
    fn close(&mut self)
        ensures { self.new ≡ drop 1 self.old }
    {
        if self.top < MAX_WEIGHT {
            self.load -= 1 + self.cells[self.top] as usize;
            self.top += 1;
        }
    }

    /// Sets the top counter to 0, where there is one.
    fn clear(&mut self)
        ensures { self.new ≡ cleared self.old }
    {
        if self.top < MAX_WEIGHT {
            self.load -= self.cells[self.top] as usize;
            self.cells[self.top] = 0;
        }
    }

    /// Adds 1 to the top counter, where there is one and that isn't too heavy.
    fn count(&mut self) -> bool
        ensures { Takes result self.new (counted self.old) }
    {
        if self.top < MAX_WEIGHT {
            if self.load == MAX_WEIGHT {
                return false;
            }
            self.cells[self.top] += 1;
            self.load += 1;
        }
        true
    }

    /// The counters after a sign, where that isn't too heavy.
    fn take_sign(&mut self, sign: Sign) -> bool
        ensures { Takes result self.new (after_sign self.old sign) }
    {
        match sign.effect() {
            Effect::Counts => self.count(),
            Effect::Opens => self.open(),
            Effect::Closes => {
                self.close();
                self.is_light()
            }
            Effect::Clears => {
                self.clear();
                self.is_light()
            }
            Effect::Keeps => self.is_light(),
        }
    }

    /// The counters after a token, where that isn't too heavy.
    fn take(&mut self, token: &Token) -> bool
        ensures { Takes result self.new (after_token self.old token.now) }
    {
        match token {
            Token::Sign(sign) => self.take_sign(*sign),
            _ => self.is_light(),
        }
    }
}

/// How many tokens there are before the first that brings the weight over 64, or `None` where none does.
pub(crate) fn heavy_at(tokens: &[Token]) -> Option<usize>
    ensures { MatchOption result (is_light tokens.now ≡ true) (λ n. IsHeavyAt tokens.now n) }
{
    let mut counters = Counters::new();
    for i in 0..tokens.len() {
        if !counters.take(&tokens[i]) {
            return Some(i);
        }
    }
    None
}
