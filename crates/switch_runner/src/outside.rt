ghost use Rattle.std.specs.Prelude.{◌≡◌, ◌≤◌, ◌<◌, ◌+◌, length, take, IfOk, IfSome, OnErr};
ghost use Rattle.switch_runner.specs.Outside.{StoreView, SinkView, ReadsPiece, Grew, Stopped};
ghost use Rattle.switch_runner.specs.Faults.{Reads};
ghost use Rattle.switch_runner.specs.declared.limits.TheConstants.{MAX_CAPTURE};

use std::alloc::AllocError;

/// A write that failed.
#[derive(Clone, Copy, Debug, PartialEq, Eq)]
pub struct Failed;

/// Why a read gave nothing.
#[derive(Clone, Copy, Debug, PartialEq, Eq)]
pub enum StoreFault {
    /// The read failed.
    Failed,
    /// Memory ran out.
    NoMemory,
}

impl From<AllocError> for StoreFault {
    ghost use Rattle.switch_runner.specs.declared.outside.StoreFault.TheVariants.{NoMemory};

    ghost from_gives = { λ _ e. e ≡ NoMemory };

    fn from(_error: AllocError) -> StoreFault {
        StoreFault::NoMemory
    }
}

/// Named byte lists that can be read. Of a store are seen, for each name, its bytes, where it tells them,
/// and a count of faults.
pub trait Store {
    ghost seen: { Self → StoreView };

    /// Reads bytes of `name` from byte `at` on into a prefix of `into`, and says how many. 0 for a piece
    /// that isn't empty is the end.
    fn read_at(&mut self, name: &str, at: u64, into: &mut [u8]) -> Result<usize, StoreFault>
        requires { at ≤ MAX_CAPTURE + 1 }
        ensures within { IfOk result (λ n. n ≤ length into.new) }
        ensures piece { IfOk result (λ n. IfSome ((seen self.old).told name.now)
            (λ bytes. ReadsPiece bytes at n into.new)) }
        ensures reads { Reads name.now (seen self.old) (seen self.new) result };
}

/// A taker of bytes. Of a sink are seen the bytes taken, where it tells them, and a count of faults.
pub trait Sink {
    ghost seen: { Self → SinkView };

    /// Takes a prefix of `piece`, and says how many bytes: at least one of a piece that isn't empty. A
    /// write that fails may have taken a prefix of the piece.
    fn write(&mut self, piece: &[u8]) -> Result<usize, Failed>
        ensures within { IfOk result (λ n. n ≤ length piece.now) }
        ensures some { IfOk result (λ n. 0 < length piece.now → 0 < n) }
        ensures ok { IfOk result (λ n. Grew (take n piece.now) (seen self.old) (seen self.new)) }
        ensures err { OnErr result (Stopped piece.now (seen self.old) (seen self.new)) };
}
