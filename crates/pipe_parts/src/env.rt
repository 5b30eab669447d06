//! Environments.
ghost use Rattle.std.specs.Prelude.{◌≡◌, List, ℤ, length};
ghost use Rattle.std.specs.Borrow.{sem};
ghost use Rattle.pipe_parts.specs.EnvWords.{refilled, LendsWords};

use std::marker::Model;

/// The words on which staged code runs, one for each slot, seen as their list. Their number never changes.
#[derive(Drop)]
pub struct Env {
    words: Vec<i32>,
}

impl Model for Env {
    ghost use Rattle.std.specs.Prelude.{List, ℤ};

    ghost Value = { List ℤ };

    ghost view = { λ e. e.words.items };
}

impl Env {
    /// An environment of these words.
    pub fn new(words: Vec<i32>) -> Env
        ensures { result ≡ words.items }
    {
        Env { words }
    }

    /// The words.
    pub fn words(&self) -> &[i32]
        ensures { result.now ≡ self.now }
    {
        self.words.as_slice()
    }

    /// The words, to be written. The environment ends with what was written, in as many words.
    pub fn words_mut(&mut self) -> &mut [i32]
        ensures words { result.now ≡ self.old }
        ensures* writes_back { sem 𝓛 (LendsWords self.entry result) }
        ensures whole { (words : List ℤ) → length words ≡ length self.old
            → refilled self.old words ≡ words }
        ensures size { (words : List ℤ) → length (refilled self.old words) ≡ length self.old }
    {
        self.words.as_mut_slice()
    }
}

#[cfg(test)]
mod tests {
    use super::*;
    use std::test::Fail;

    #[test]
    fn words_are_read_and_written(rt: HostRuntime) -> Result<(), Fail> {
        let mut env = Env::new(vec![in rt.alloc(); 3, -4, 5]?);
        env.words_mut()[1] = 9;
        assert_eq!(rt; env.words(), [3, 9, 5].as_slice());
        let none = Env::new(vec![in rt.alloc(); 0; 0]?);
        assert_eq!(rt; none.words().len(), 0);
        Ok(())
    }
}
