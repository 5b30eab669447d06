//! Numbers for the classes of places.
ghost use Rattle.std.specs.Prelude.{◌≡◌, ◌+◌, ◌<◌, ◌≤◌, length, IfOk, All};
ghost use Rattle.dependence.specs.Classes.{AreNumbers, IsKey};
ghost use Rattle.dependence.specs.Numbering.{Numbers, has_next};

use mp5_words::NoMemory;
use std::alloc::{AllocError, Global};

/// One number for each place: places with the same key have the same number, and a place without a key has one of its
/// own. Numbers go up from 0 in the order of the places. A key is the number of an array. It takes time in proportion
/// to the number of places.
pub fn number_classes(alloc: Global, keys: &[Option<u32>]) -> Result<Vec<u32>, NoMemory>
    requires keys { All IsKey keys.now }
    requires few { length keys.now ≤ 1024 }
    ensures { IfOk result (λ numbers. AreNumbers keys.now numbers.items) }
{
    Ok(numbers_of(alloc, keys)?)
}

// The number of each place.
fn numbers_of(alloc: Global, keys: &[Option<u32>]) -> Result<Vec<u32>, AllocError>
    requires keys { All IsKey keys.now }
    requires few { length keys.now ≤ 1024 }
    ensures { IfOk result (λ numbers. AreNumbers keys.now numbers.items) }
{
    let mut numbers = Vec::with_capacity(alloc, keys.len())?;
    let mut numbering = Numbering {
        firsts: [None; 16],
        next: 0,
    };
    for key in keys {
        numbers.push(numbering.number(*key))?;
    }
    Ok(numbers)
}

// The number of the first place of each key, and the next new number.
#[derive(Drop)]
struct Numbering {
    firsts: [Option<u32>; 16],
    next: u32,
}

impl Numbering {
    // The number of the next place, which has this key.
    fn number(&mut self, key: Option<u32>) -> u32
        requires key { IsKey key }
        requires next { self.old.next < 1024 }
        ensures { Numbers self.old key result self.new }
    {
        let Some(array) = key else {
            return self.fresh();
        };
        if let Some(number) = self.firsts[array as usize] {
            return number;
        }
        let number = self.fresh();
        self.firsts[array as usize] = Some(number);
        number
    }

    // A number that no place has.
    fn fresh(&mut self) -> u32
        requires { self.old.next < 1024 }
        ensures number { result ≡ self.old.next }
        ensures next { self.new ≡ has_next self.old (self.old.next + 1) }
    {
        let number = self.next;
        self.next += 1;
        number
    }
}

#[cfg(test)]
mod tests {
    use super::*;
    use std::test::Fail;

    #[test]
    fn two_arrays_and_five_alone(rt: HostRuntime) -> Result<(), Fail> {
        let a = Some(0);
        let b = Some(1);
        let keys = [None, a, None, None, None, None, b, b, b, a, a, a, b];
        let numbers = number_classes(rt.alloc(), &keys)?;
        assert_eq!(rt;
            numbers.as_slice(),
            [0, 1, 2, 3, 4, 5, 6, 6, 6, 1, 1, 1, 6].as_slice()
        );
        Ok(())
    }

    #[test]
    fn edges(rt: HostRuntime) -> Result<(), Fail> {
        let none = number_classes(rt.alloc(), &[])?;
        assert_eq!(rt; none.len(), 0);
        let last = number_classes(rt.alloc(), &[Some(15), Some(0), Some(15)])?;
        assert_eq!(rt;
            last.as_slice(),
            [0, 1, 0].as_slice(),
            "numbers go by place, not by key"
        );
        Ok(())
    }
}
