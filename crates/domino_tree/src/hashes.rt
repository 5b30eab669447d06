//! The hash functions in one table, which the checks and the numbering search.
ghost use Rattle.std.specs.Prelude.{◌≡◌};
ghost use Rattle.domino_tree.specs.Value as spec;

use mp5_words::{HashKind, Name};

/// All hash functions.
pub const HASH_KINDS: [HashKind; 4] = [
    HashKind::Two,
    HashKind::TwoA,
    HashKind::TwoB,
    HashKind::Three,
];

/// The name of a hash function.
pub fn hash_name(kind: HashKind) -> &'static str
    ensures { result.now ≡ spec.hash_name kind }
{
    match kind {
        HashKind::Two => "hash2",
        HashKind::TwoA => "hash2a",
        HashKind::TwoB => "hash2b",
        HashKind::Three => "hash3",
    }
}

/// The hash function of a name, where it is one.
pub fn hash_kind(name: &Name) -> Option<HashKind>
    ensures { result ≡ spec.hash_kind name.now }
{
    HASH_KINDS
        .iter()
        .copied()
        .find(|kind| name.bytes() == hash_name(*kind).as_bytes())
}
