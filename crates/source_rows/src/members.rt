//! The arrays of a group.
ghost use Rattle.std.specs.Prelude.{◌↔◌, IsTrue, MatchOption};
ghost use Rattle.domino_check.specs.Place.{NoneOf};
ghost use Rattle.source_rows.specs.Members.{IsOf, IsFirst};

/// Whether an array is of the group, where each of sixteen arrays has this group.
pub(crate) fn is_of(of: &[Option<u32>; 16], group: u32, array: usize) -> bool
    ensures { IsTrue result ↔ IsOf of.now group array }
{
    array < 16 && of[array] == Some(group)
}

/// The first of these arrays that is of the group.
pub(crate) fn first_of(of: &[Option<u32>; 16], group: u32, arrays: &[u32]) -> Option<u32>
    ensures { MatchOption result (NoneOf of.now group arrays.now)
        (IsFirst of.now group arrays.now) }
{
    for array in arrays {
        if is_of(of, group, *array as usize) {
            return Some(*array);
        }
    }
    None
}
