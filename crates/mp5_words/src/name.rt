ghost use Rattle.std.specs.Prelude.{◌≡◌, ◌<◌, ◌≤◌, ◌↔◌, length, slice_get, Some, IsTrue};

use std::marker::Model;

/// A name, seen as its list of bytes.
#[derive(Debug, Drop)]
pub struct Name {
    bytes: Vec<u8>,
}

impl Model for Name {
    ghost use Rattle.std.specs.Prelude.{List, ℕ};
    ghost use Rattle.std.specs.Coded.{coded_list, coded_ℕ};

    ghost Value = { List ℕ };

    ghost coded = { coded_list coded_ℕ };

    ghost view = { λ name. name.bytes.items };
}

impl Name {
    /// The name of these bytes.
    pub fn new(bytes: Vec<u8>) -> Name
        ensures { result ≡ bytes.items }
    {
        Name { bytes }
    }

    /// The bytes of the name.
    pub fn bytes(&self) -> &[u8]
        ensures { result.now ≡ self.now }
    {
        &self.bytes
    }

    /// Whether the two names have the same bytes.
    pub fn is_same(&self, other: &Name) -> bool
        ensures { IsTrue result ↔ (self.now ≡ other.now) }
    {
        self.bytes() == other.bytes()
    }
}

/// The names of a packet's fields in order of declaration, at most 32, seen as a list of names.
#[derive(Debug, Drop)]
pub struct FieldNames {
    names: Vec<Name>,
}

impl Model for FieldNames {
    ghost use Rattle.std.specs.Prelude.{List, ℕ, ◌≤◌, length};

    ghost Value = { List (List ℕ) };

    ghost view = { λ fields. fields.names.items };

    ghost invariant = { λ fields. length fields.names.items ≤ 32 };
}

impl FieldNames {
    /// The fields of these names.
    pub fn new(names: Vec<Name>) -> FieldNames
        requires { length names.items ≤ 32 }
        ensures { result ≡ names.items }
    {
        FieldNames { names }
    }

    /// How many fields there are.
    pub fn count(&self) -> u32
        ensures count { result ≡ length self.now }
        ensures limit { result ≤ 32 }
    {
        self.names.len() as u32
    }

    /// The name of field `i`.
    pub fn name(&self, i: u32) -> &Name
        requires { i < length self.now }
        ensures { slice_get self.now i ≡ Some result.now }
    {
        &self.names[i as usize]
    }
}

#[cfg(test)]
mod tests {
    use super::*;
    use std::alloc::{AllocError, Global};
    use std::test::Fail;

    fn named(alloc: Global, text: &str) -> Result<Name, AllocError> {
        Ok(Name::new(Vec::from_slice(alloc, text.as_bytes())?))
    }

    #[test]
    fn names_keep_their_bytes(rt: HostRuntime) -> Result<(), Fail> {
        let sport = named(rt.alloc(), "sport")?;
        assert_eq!(rt; sport.bytes(), b"sport".as_slice());
        for (text, want) in [
            ("sport", true),
            ("dport", false),
            ("sports", false),
            ("", false),
        ] {
            assert_eq!(rt; sport.is_same(&named(rt.alloc(), text)?), want, "at {text}");
        }
        let fields = FieldNames::new(vec![in rt.alloc(); sport, named(rt.alloc(), "n")?]?);
        assert_eq!(rt; fields.count(), 2);
        assert_eq!(rt; fields.name(0).bytes(), b"sport".as_slice());
        assert_eq!(rt; fields.name(1).bytes(), b"n".as_slice());
        Ok(())
    }
}
