ghost use Rattle.std.specs.Prelude.{◌≡◌, ◌<◌};
ghost use Rattle.mp5_words.specs.Words.{op1, op2, modulo};

/// The operators on one word.
#[derive(Clone, Copy, Debug, PartialEq, Eq)]
pub enum Op1 {
    /// `-`
    Neg,
    /// `!`
    Not,
    /// `~`
    Flip,
}

/// The operators between two words.
#[derive(Clone, Copy, Debug, PartialEq, Eq)]
pub enum Op2 {
    /// `*`
    Mul,
    /// `/`
    Div,
    /// `%`
    Rem,
    /// `+`
    Add,
    /// `-`
    Sub,
    /// `<<`
    Shl,
    /// `>>`
    Shr,
    /// `<`
    Lt,
    /// `<=`
    Le,
    /// `>`
    Gt,
    /// `>=`
    Ge,
    /// `==`
    Eq,
    /// `!=`
    Ne,
    /// `&`
    BitAnd,
    /// `^`
    BitXor,
    /// `|`
    BitOr,
    /// `&&`
    And,
    /// `||`
    Or,
}

/// The word that `op` gives for `a`: the exact negation reduced to 32 bits, 1 or 0, or the flipped bits.
pub fn apply1(op: Op1, a: i32) -> i32
    ensures { result ≡ op1 op a }
{
    match op {
        Op1::Neg => a.wrapping_neg(),
        Op1::Not => i32::from(a == 0),
        Op1::Flip => !a,
    }
}

/// The word that `op` gives for `a` and `b`.
///
/// Sums, differences and products are exact and reduced to 32 bits. `/` rounds toward zero, `%` is what
/// it leaves, and both are 0 where `b` is 0. Shifts take `b` modulo 32. Comparisons are signed.
/// Comparisons, `&&` and `||` give 1 or 0, and a word is true if it isn't 0.
pub fn apply2(op: Op2, a: i32, b: i32) -> i32
    ensures { result ≡ op2 op a b }
{
    match op {
        Op2::Mul => a.wrapping_mul(b),
        Op2::Div => quotient_of(a, b),
        Op2::Rem => remainder_of(a, b),
        Op2::Add => a.wrapping_add(b),
        Op2::Sub => a.wrapping_sub(b),
        Op2::Shl => a << shift_of(b),
        Op2::Shr => a >> shift_of(b),
        Op2::Lt => i32::from(a < b),
        Op2::Le => i32::from(a <= b),
        Op2::Gt => i32::from(a > b),
        Op2::Ge => i32::from(a >= b),
        Op2::Eq => i32::from(a == b),
        Op2::Ne => i32::from(a != b),
        Op2::BitAnd => a & b,
        Op2::BitXor => a ^ b,
        Op2::BitOr => a | b,
        Op2::And => i32::from(a != 0 && b != 0),
        Op2::Or => i32::from(a != 0 || b != 0),
    }
}

// A zero divisor gives 0.
fn quotient_of(a: i32, b: i32) -> i32
    ensures { result ≡ op2 Op2.Div a b }
{
    if b == 0 { 0 } else { a.wrapping_div(b) }
}

// A zero divisor gives 0.
fn remainder_of(a: i32, b: i32) -> i32
    ensures { result ≡ op2 Op2.Rem a b }
{
    if b == 0 { 0 } else { a.wrapping_rem(b) }
}

// By how many bits a shift by `b` goes.
fn shift_of(b: i32) -> u32
    ensures value { result ≡ modulo b 32 }
    ensures bound { result < 32 }
{
    b.rem_euclid(32).unsigned_abs()
}

#[cfg(test)]
mod tests {
    use super::*;

    #[test]
    fn one_word(rt: HostRuntime) {
        for (op, a, want) in [
            (Op1::Neg, 5, -5),
            (Op1::Neg, -2147483648, -2147483648),
            (Op1::Not, 0, 1),
            (Op1::Not, -7, 0),
            (Op1::Flip, 0, -1),
            (Op1::Flip, 2147483647, -2147483648),
        ] {
            assert_eq!(rt; apply1(op, a), want, "at {op:?} {a}");
        }
    }

    #[test]
    fn two_words(rt: HostRuntime) {
        for (op, a, b, want) in [
            (Op2::Mul, 65536, 65536, 0),
            (Op2::Mul, 46341, 46341, -2147479015),
            (Op2::Mul, -3, 7, -21),
            (Op2::Div, -7, 4, -1),
            (Op2::Div, 7, -2, -3),
            (Op2::Div, 9, 0, 0),
            (Op2::Div, -2147483648, -1, -2147483648),
            (Op2::Rem, -7, 4, -3),
            (Op2::Rem, 7, -4, 3),
            (Op2::Rem, 9, 0, 0),
            (Op2::Rem, -2147483648, -1, 0),
            (Op2::Add, 2, 3, 5),
            (Op2::Add, 2147483647, 1, -2147483648),
            (Op2::Add, -2147483648, -1, 2147483647),
            (Op2::Sub, 0, -2147483648, -2147483648),
            (Op2::Sub, -1, 2147483647, -2147483648),
            (Op2::Shl, 1, 33, 2),
            (Op2::Shl, 3, 31, -2147483648),
            (Op2::Shl, 1, -1, -2147483648),
            (Op2::Shr, -7, 1, -4),
            (Op2::Shr, -1, 63, -1),
            (Op2::Shr, 9, -31, 4),
            (Op2::Lt, -1, 1, 1),
            (Op2::Lt, 1, 1, 0),
            (Op2::Le, 1, 1, 1),
            (Op2::Le, 2, -2147483648, 0),
            (Op2::Gt, 2, 1, 1),
            (Op2::Gt, -2, 1, 0),
            (Op2::Ge, 1, 1, 1),
            (Op2::Ge, 0, 1, 0),
            (Op2::Eq, 4, 4, 1),
            (Op2::Eq, 4, -4, 0),
            (Op2::Ne, 4, -4, 1),
            (Op2::Ne, 4, 4, 0),
            (Op2::BitAnd, -2, 7, 6),
            (Op2::BitXor, -1, 5, -6),
            (Op2::BitOr, 8, 3, 11),
            (Op2::And, 2, 4, 1),
            (Op2::And, 2, 0, 0),
            (Op2::Or, 0, -3, 1),
            (Op2::Or, 0, 0, 0),
        ] {
            assert_eq!(rt; apply2(op, a, b), want, "at {op:?} {a} {b}");
        }
    }
}
