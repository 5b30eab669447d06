ghost use Rattle.std.specs.Prelude.{◌≡◌, ◌<◌, ◌≤◌, ◌∷◌};
ghost use Rattle.mp5_words.specs.Words.{hash as hash_of, arity, mix, mixed, salt, word_bytes, argument_bytes, cell};

/// The hash functions: three of two words, which differ in their salt, and one of three words.
#[derive(Clone, Copy, Debug, PartialEq, Eq)]
pub enum HashKind {
    /// `hash2`
    Two,
    /// `hash2a`
    TwoA,
    /// `hash2b`
    TwoB,
    /// `hash3`
    Three,
}

impl HashKind {
    /// How many arguments a call of the function has.
    pub fn arity(self) -> usize
        ensures { result ≡ arity self }
    {
        match self {
            HashKind::Two | HashKind::TwoA | HashKind::TwoB => 2,
            HashKind::Three => 3,
        }
    }
}

// Where FNV-1a of 32 bits starts, and by what it multiplies.
const START: u32 = 2_166_136_261;

const PRIME: u32 = 16_777_619;

/// The hash of the words, from 0 on: FNV-1a of 32 bits without its top bit, over a salt byte and the four
/// bytes of each word, least significant first. Only `Three` looks at `c`.
pub fn hash(kind: HashKind, a: i32, b: i32, c: i32) -> i32
    ensures { result ≡ hash_of kind a b c }
{
    (state_of(kind, a, b, c) % (1 << 31)) as i32
}

/// The number of the cell that the word names in an array of `length` cells: the mathematical remainder.
pub fn cell_of(index: i32, length: u32) -> u32
    requires least { 1 ≤ length }
    requires most { length ≤ 65536 }
    ensures value { result ≡ cell index length }
    ensures bound { result < length }
{
    index.rem_euclid(length as i32).unsigned_abs()
}

// The state after the salt and the words.
fn state_of(kind: HashKind, a: i32, b: i32, c: i32) -> u32
    ensures { result ≡ mixed 2166136261 (salt kind ∷ argument_bytes kind a b c) }
{
    let salted = after_byte(START, salt_of(kind));
    let state = after_word(after_word(salted, a), b);
    match kind {
        HashKind::Three => after_word(state, c),
        HashKind::Two | HashKind::TwoA | HashKind::TwoB => state,
    }
}

// The byte that tells the hashes apart.
fn salt_of(kind: HashKind) -> u8
    ensures { result ≡ salt kind }
{
    match kind {
        HashKind::Two => b'2',
        HashKind::TwoA => b'a',
        HashKind::TwoB => b'b',
        HashKind::Three => b'3',
    }
}

// The state after a byte.
fn after_byte(state: u32, byte: u8) -> u32
    ensures { result ≡ mix state byte }
{
    (state ^ u32::from(byte)).wrapping_mul(PRIME)
}

// The state after the four bytes of a word.
fn after_word(start: u32, a: i32) -> u32
    ensures { result ≡ mixed start (word_bytes a) }
{
    let mut state = start;
    for byte in a.to_le_bytes() {
        state = after_byte(state, byte);
    }
    state
}

#[cfg(test)]
mod tests {
    use super::*;

    #[test]
    fn hashes(rt: HostRuntime) {
        assert_eq!(rt; after_byte(START, salt_of(HashKind::TwoA)), 0xe40c292c);
        for (kind, a, b, c, want) in [
            (HashKind::TwoA, 0, 0, 0, 2122621612),
            (HashKind::TwoA, 1, 2, 0, 2084470767),
            (HashKind::TwoA, 1, 2, 9, 2084470767),
            (HashKind::Two, 1, 2, 0, 202526838),
            (HashKind::TwoB, 1, 2, 0, 626394246),
            (HashKind::Three, 1, 2, 3, 1308059554),
            (HashKind::Three, -1, 2, -3, 561875258),
        ] {
            assert_eq!(rt; hash(kind, a, b, c), want, "at {kind:?} {a} {b} {c}");
        }
    }

    #[test]
    fn cells(rt: HostRuntime) {
        for (index, length, want) in [
            (5, 4, 1),
            (-7, 4, 1),
            (-1, 65536, 65535),
            (-2147483648, 3, 1),
            (2147483647, 1, 0),
        ] {
            assert_eq!(rt; cell_of(index, length), want, "at {index} {length}");
        }
    }
}
