//! The packets of a capture.

ghost use Rattle.std.specs.Prelude.{◌≡◌, ◌<◌, ◌≤◌, ◌*◌, length, slice_get, Some};
ghost use Rattle.std.specs.List.{flat_map};
ghost use Rattle.capture_io.specs.Rows.{rows};

use crate::limits::MAX_RECORDS;
use std::marker::Model;

/// The packets of a capture, seen as the list of their fields' values, in order of arrival.
#[derive(Debug, Drop)]
pub struct Capture {
    pub(crate) words: Vec<i32>,
    pub(crate) width: u32,
    pub(crate) packets: u32,
}

impl Model for Capture {
    ghost use Rattle.std.specs.Prelude.{List, ℤ, ◌≡◌, ◌≤◌, ◌*◌};
    ghost use Rattle.std.specs.Vec.{vec_len};
    ghost use Rattle.capture_io.specs.Rows.{rows};
    ghost use Rattle.capture_io.specs.declared.limits.TheConstants.{MAX_RECORDS};

    ghost Value = { List (List ℤ) };

    ghost view = { λ c. rows c.packets c.width c.words.items };

    ghost invariant = { λ c.
        (vec_len c.words ≡ c.packets * c.width) × (c.packets ≤ MAX_RECORDS) × (c.width ≤ 32) };
}

impl Capture {
    /// The packets that have these words as their fields, one packet's after another's.
    pub fn of(count: u32, fields: u32, words: Vec<i32>) -> Capture
        requires packets { count ≤ MAX_RECORDS }
        requires width { fields ≤ 32 }
        requires words { length words.items ≡ count * fields }
        ensures { result ≡ rows count fields words.items }
    {
        Capture {
            words,
            width: fields,
            packets: count,
        }
    }

    /// How many packets there are.
    pub fn count(&self) -> u32
        ensures count { result ≡ length self.now }
        ensures limit { result ≤ MAX_RECORDS }
    {
        self.packets
    }

    /// The fields of packet `t`, a word each, in order of declaration.
    pub fn header(&self, t: u32) -> &[i32]
        requires { t < length self.now }
        ensures { slice_get self.now t ≡ Some result.now }
    {
        let width = self.width as usize;
        let start = t as usize * width;
        &self.words[start..start + width]
    }

    /// The fields of all packets, one packet's after another's.
    pub fn into_words(self) -> Vec<i32>
        ensures { result.items ≡ flat_map (λ packet. packet) self }
    {
        self.words
    }
}
