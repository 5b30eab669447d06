//! The signs by their first byte.

ghost use Rattle.std.specs.Prelude.{◌≡◌, IfOk};
ghost use Rattle.domino_syntax.specs.Tokens.{first_sign};
ghost use Rattle.domino_syntax.specs.SignIndex.{begins_with, first_of, signs_with};

use domino_tree::{SIGNS, Sign};
use std::alloc::{AllocError, Global};
use std::marker::Model;

/// For each byte the signs that begin with it, in the order of the table.
#[derive(Drop)]
pub(crate) struct SignIndex {
    by_first: Vec<Vec<Sign>>,
}

impl Model for SignIndex {
    ghost use Rattle.std.specs.Prelude.{◌≡◌, List, map};
    ghost use Rattle.domino_tree.specs.declared.token.Sign.{Sign};
    ghost use Rattle.domino_syntax.specs.SignIndex.{signs_by_first};

    ghost Value = { List (List Sign) };

    ghost view = { λ index. map (λ signs. signs.items) index.by_first.items };

    ghost invariant = { λ index. map (λ signs. signs.items) index.by_first.items ≡ signs_by_first };
}

fn begins_with(sign: Sign, first: u8) -> bool
    ensures { result ≡ begins_with first sign }
{
    sign.text().as_bytes().starts_with(&[first])
}

/// The signs that begin with a byte, in the order of the table.
#[tactic(auto, unfolding(crate::specs::SignIndex::signs_with))]
fn signs_with(alloc: Global, first: u8) -> Result<Vec<Sign>, AllocError>
    ensures { IfOk result (λ signs. signs.items ≡ signs_with first) }
{
    SIGNS
        .iter()
        .copied()
        .filter(|sign| begins_with(*sign, first))
        .collect(alloc)
}

/// The first of some signs that begins a text.
fn first_of(signs: &[Sign], text: &[u8]) -> Option<Sign>
    ensures { result ≡ first_of text.now signs.now }
{
    signs
        .iter()
        .copied()
        .find(|sign| text.starts_with(sign.text().as_bytes()))
}

impl SignIndex {
    pub fn new(alloc: Global) -> Result<SignIndex, AllocError> {
        let mut by_first = Vec::new(alloc);
        for first in 0..256_usize {
            by_first.push(signs_with(alloc, first as u8)?)?;
        }
        Ok(SignIndex { by_first })
    }

    /// The signs that begin with a byte, in the order of the table.
    fn beginning(&self, first: u8) -> &[Sign]
        ensures { result.now ≡ signs_with first }
    {
        &self.by_first[usize::from(first)]
    }

    /// The longest sign that begins a text.
    pub fn first_sign(&self, text: &[u8]) -> Option<Sign>
        ensures { result ≡ first_sign text.now }
    {
        match text {
            [] => None,
            [first, ..] => first_of(self.beginning(*first), text),
        }
    }
}
