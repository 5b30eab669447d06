//! Why a program isn't compiled.
ghost use Rattle.std.specs.Prelude.{◌≡◌};

use domino_check::CheckFault;
use domino_syntax::TextFault;
use mp5_words::NoMemory;
use ssa_flatten::FlatFault;
use thiserror::Error;

/// Why a program isn't compiled.
#[derive(Debug, Drop, Error)]
pub enum ProgramFault {
    /// The text isn't a program of the grammar.
    #[error("{0}")]
    Text(TextFault),
    /// The program doesn't pass the checks.
    #[error("{0}")]
    Check(CheckFault),
    /// The program has this many instructions, more than 1,024.
    #[error("the program has {0} instructions, more than 1024")]
    TooLarge(u32),
    /// Memory ran out.
    #[error("out of memory")]
    NoMemory,
}

impl From<TextFault> for ProgramFault {
    ghost use Rattle.domino_compile.specs.Accepted.{of_text};

    ghost from_gives = { λ fault e. e ≡ of_text fault };

    fn from(fault: TextFault) -> ProgramFault {
        match fault {
            TextFault::NoMemory => ProgramFault::NoMemory,
            fault => ProgramFault::Text(fault),
        }
    }
}

impl From<CheckFault> for ProgramFault {
    ghost use Rattle.domino_compile.specs.Accepted.{of_check};

    ghost from_gives = { λ fault e. e ≡ of_check fault };

    fn from(fault: CheckFault) -> ProgramFault {
        match fault {
            CheckFault::NoMemory => ProgramFault::NoMemory,
            fault => ProgramFault::Check(fault),
        }
    }
}

impl From<FlatFault> for ProgramFault {
    ghost use Rattle.domino_compile.specs.Accepted.{of_flat};

    ghost from_gives = { λ fault e. e ≡ of_flat fault };

    fn from(fault: FlatFault) -> ProgramFault {
        match fault {
            FlatFault::NoMemory => ProgramFault::NoMemory,
            FlatFault::TooLarge(n) => ProgramFault::TooLarge(n),
        }
    }
}

impl From<NoMemory> for ProgramFault {
    ghost use Rattle.domino_compile.specs.declared.fault.ProgramFault.TheVariants.{NoMemory};

    ghost from_gives = { λ _ e. e ≡ NoMemory };

    fn from(_error: NoMemory) -> ProgramFault {
        ProgramFault::NoMemory
    }
}
