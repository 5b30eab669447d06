//! Sets of arrays as numbers.
ghost use Rattle.std.specs.Prelude.{◌≡◌, true, if◌then◌else◌, slice_set};
ghost use Rattle.mp5_words.specs.Cells.{bits};

/// Marks an array, where it is to be marked, beside others whose number is `set`. Gives the number of them all.
pub(crate) fn added(set: u16, marks: &mut [bool; 16], array: u32, is_marked: bool) -> u16
    requires { set ≡ bits marks.old }
    ensures marks { marks.new ≡ (if is_marked then slice_set marks.old array true else marks.old) }
    ensures set { result ≡ bits marks.new }
{
    if !is_marked {
        return set;
    }
    with_mark(set, marks, array as usize)
}

// Marks a place, and gives the number of all marks.
fn with_mark(set: u16, marks: &mut [bool; 16], place: usize) -> u16
    requires { set ≡ bits marks.old }
    ensures marks { marks.new ≡ slice_set marks.old place true }
    ensures set { result ≡ bits marks.new }
{
    if place >= 16 {
        return set;
    }
    let is_new = !marks[place];
    marks[place] = true;
    set + (u16::from(is_new) << place)
}
