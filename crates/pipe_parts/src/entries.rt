//! What was done to the own arrivals.
ghost use Rattle.std.specs.Prelude.{◌≡◌, ◌<◌, length, IfOk, slice_index, slice_set};
ghost use Rattle.pipe_parts.specs.EntryList.{untouched, entry_of};

use mp5_words::NoMemory;
use std::alloc::Global;
use std::marker::Model;

/// What was done to an arrival: for each group the pipe that served it, 255 where none did, and the set of
/// arrays that it touched there, bit `a` for array `a`.
#[derive(Clone, Copy, Debug, PartialEq, Eq)]
pub struct Entry {
    pub by: [u8; 16],
    pub touched: [u16; 16],
}

/// What was done to each own arrival of a pipe, seen as a list in order of arrival.
#[derive(Drop)]
pub struct Entries {
    rows: Vec<Entry>,
}

impl Model for Entries {
    ghost use Rattle.std.specs.Prelude.{List};
    ghost use Rattle.pipe_parts.specs.declared.entries.Entry.{Entry};

    ghost Value = { List Entry };

    ghost view = { λ e. e.rows.items };
}

impl Entries {
    /// So many own arrivals, to each of which nothing was done.
    pub fn new(alloc: Global, own: u32) -> Result<Entries, NoMemory>
        ensures { IfOk result (λ e. e ≡ untouched own) }
    {
        let none = Entry {
            by: [255; 16],
            touched: [0; 16],
        };
        Ok(Entries {
            rows: vec![in alloc; none; own as usize]?,
        })
    }

    /// Own arrival `k` came home with these entries.
    pub fn set(&mut self, k: u32, by: &[u8; 16], touched: &[u16; 16])
        requires { k < length self.old }
        ensures { self.new ≡ slice_set self.old k (record { by = by.now; touched = touched.now }) }
    {
        self.rows[k as usize] = Entry {
            by: *by,
            touched: *touched,
        };
    }

    /// The pipe that served own arrival `k` at group `g`, 255 where none did.
    pub fn by(&self, k: u32, g: u32) -> u8
        requires own { k < length self.now }
        requires group { g < 16 }
        ensures { result ≡ slice_index (entry_of self.now k).by g }
    {
        self.rows[k as usize].by[g as usize]
    }

    /// The arrays that own arrival `k` touched at group `g`.
    pub fn touched(&self, k: u32, g: u32) -> u16
        requires own { k < length self.now }
        requires group { g < 16 }
        ensures { result ≡ slice_index (entry_of self.now k).touched g }
    {
        self.rows[k as usize].touched[g as usize]
    }
}

#[cfg(test)]
mod tests {
    use super::*;
    use std::test::Fail;

    #[test]
    fn one_of_two_came_home(rt: HostRuntime) -> Result<(), Fail> {
        let mut entries = Entries::new(rt.alloc(), 2)?;
        let mut by = [255; 16];
        by[3] = 2;
        let mut touched = [0; 16];
        touched[3] = 0x8001;
        entries.set(1, &by, &touched);
        assert_eq!(rt; entries.by(1, 3), 2);
        assert_eq!(rt; entries.touched(1, 3), 0x8001);
        assert_eq!(rt; entries.by(1, 4), 255);
        assert_eq!(rt; entries.by(0, 3), 255, "it is out");
        assert_eq!(rt; entries.touched(0, 3), 0);
        Ok(())
    }
}
