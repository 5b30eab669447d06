//! The environments that are free.
ghost use Rattle.std.specs.Prelude.{◌≡◌, [], ◌∷◌, ◌++◌, ◌<◌, ◌≤◌, length, IfOk, IfSome, IfNone};
ghost use Rattle.pipe_parts.specs.FreeEnvs.{all_free, with_free, IsFree};

use crate::env::Env;
use mp5_words::NoMemory;
use std::alloc::Global;
use std::marker::Model;

/// The environments that no packet has, seen as how many there may be, the number of words of each, and the
/// list of those that are free, of which the last goes out first.
#[derive(Drop)]
pub struct Envs {
    room: u32,
    slots: u32,
    free: Vec<Env>,
}

impl Model for Envs {
    ghost use Rattle.std.specs.Prelude.{vec_capacity};
    ghost use Rattle.pipe_parts.specs.FreeEnvs.{FreeEnvs};
    ghost use Rattle.pipe_parts.specs.Keeping.{KeepsFree};

    ghost Value = { FreeEnvs };

    ghost view = { λ e. record { room = e.room; slots = e.slots; envs = e.free.items } };

    ghost invariant = { λ e. KeepsFree record { room = e.room; slots = e.slots; envs = e.free.items } (vec_capacity e.free) };
}

impl Envs {
    /// So many environments of so many words, each 0. All are free.
    pub fn new(alloc: Global, count: u32, slots: u32) -> Result<Envs, NoMemory>
        ensures { IfOk result (λ e. e ≡ all_free count slots) }
    {
        let mut free = Vec::with_capacity(alloc, count as usize)?;
        for _ in 0..count {
            free.push_reserved(Env::new(vec![in alloc; 0; slots as usize]?));
        }
        Ok(Envs {
            room: count,
            slots,
            free,
        })
    }

    /// Takes a free environment, that which became free last. None exactly where none is free.
    pub fn pop(&mut self) -> Option<Env>
        ensures last { IfSome result (λ e. self.old ≡ with_free self.new e) }
        ensures size { IfSome result (λ e. length e ≡ self.old.slots) }
        ensures none { IfNone result (self.old.envs ≡ []) }
        ensures kept { IfNone result (self.new ≡ self.old) }
    {
        self.free.pop()
    }

    /// An environment of as many words becomes free. Fewer than there may be are free.
    pub fn push(&mut self, env: Env)
        requires room { length self.old.envs < self.old.room }
        requires size { length env ≡ self.old.slots }
        ensures { self.new ≡ with_free self.old env }
    {
        self.free.push_reserved(env);
    }

    /// How many are free.
    pub fn count(&self) -> u32
        ensures count { result ≡ length self.now.envs }
        ensures laws { IsFree self.now }
    {
        self.free.len() as u32
    }
}

#[cfg(test)]
mod tests {
    use super::*;
    use std::test::Fail;

    #[test]
    fn the_last_that_became_free_goes_first(rt: HostRuntime) -> Result<(), Fail> {
        let mut envs = Envs::new(rt.alloc(), 2, 3)?;
        assert_eq!(rt; envs.count(), 2);
        let Some(mut first) = envs.pop() else {
            return Ok(())
        };
        assert_eq!(rt; first.words(), [0, 0, 0].as_slice());
        first.words_mut()[2] = 7;
        assert_eq!(rt; envs.pop().is_some(), true);
        assert_eq!(rt; envs.pop().is_none(), true, "none is free");
        envs.push(first);
        assert_eq!(rt; envs.count(), 1);
        assert_eq!(rt; envs.pop().map(|env| env.words()[2]), Some(7));
        Ok(())
    }
}
