//! The operators of one precedence level.

ghost use Rattle.std.specs.Prelude.{◌≡◌};
ghost use Rattle.domino_tree.specs.Operators.{operator_between};
ghost use Rattle.domino_syntax.specs.ReadingExpressions.{level_of, of_level};

use domino_tree::{Effect, Sign, level, operator_between};
use mp5_words::Op2;

/// The operator of this precedence level that a sign writes between two expressions.
pub(crate) fn operator_of_level(wanted: usize, sign: Sign) -> Option<Op2>
    ensures { result ≡ of_level wanted (operator_between sign) }
{
    match operator_between(sign) {
        Some(op) if level(op) == wanted => Some(op),
        _ => None,
    }
}

/// The precedence level of the operator that a sign writes between two expressions. Only signs
/// that count for the weight write one.
pub(crate) fn level_of_sign(sign: Sign) -> Option<usize>
    ensures { result ≡ level_of (operator_between sign) }
{
    match sign.effect() {
        Effect::Counts => operator_between(sign).map(|op| level(op)),
        _ => None,
    }
}
