ghost use Rattle.std.specs.Prelude.{◌≡◌};

use crate::outside::StoreFault;
use capture_io::CaptureFault;
use command_line::WordsFault;
use domino_compile::ProgramFault;

/// How a call of the program ends.
#[derive(Debug, Drop)]
pub enum Status {
    /// All was read, run and written.
    Done,
    /// The words ask for help.
    Help,
    /// The command doesn't take the words.
    Words,
    /// The program isn't compiled.
    Program(ProgramFault),
    /// The capture isn't read.
    Capture(CaptureFault),
    /// A file could not be read.
    ReadFault,
    /// The output could not be written.
    WriteFault,
    /// Memory ran out.
    NoMemory,
}

impl Status {
    ghost use Rattle.switch_runner.specs.Causes as causes;

    /// The exit status of the process: 0 for Done, 1 for Help, 2 for Words, 3 for Program, 4 for Capture, 5 for
    /// ReadFault, 6 for WriteFault and 7 for NoMemory.
    pub fn code(&self) -> u8
        ensures { result ≡ causes.code self.now }
    {
        match self {
            Status::Done => 0,
            Status::Help => 1,
            Status::Words => 2,
            Status::Program(_) => 3,
            Status::Capture(_) => 4,
            Status::ReadFault => 5,
            Status::WriteFault => 6,
            Status::NoMemory => 7,
        }
    }
}

impl From<WordsFault> for Status {
    ghost use Rattle.switch_runner.specs.Causes.{answer_of_words};

    ghost from_gives = { λ fault e. e ≡ answer_of_words fault };

    fn from(fault: WordsFault) -> Status {
        match fault {
            WordsFault::Help => Status::Help,
            WordsFault::Words => Status::Words,
            WordsFault::NoMemory => Status::NoMemory,
        }
    }
}

impl From<ProgramFault> for Status {
    ghost use Rattle.switch_runner.specs.Causes.{answer_of_program};

    ghost from_gives = { λ fault e. e ≡ answer_of_program fault };

    fn from(fault: ProgramFault) -> Status {
        match fault {
            ProgramFault::NoMemory => Status::NoMemory,
            fault => Status::Program(fault),
        }
    }
}

impl From<CaptureFault> for Status {
    ghost use Rattle.switch_runner.specs.Causes.{answer_of_capture};

    ghost from_gives = { λ fault e. e ≡ answer_of_capture fault };

    fn from(fault: CaptureFault) -> Status {
        match fault {
            CaptureFault::NoMemory => Status::NoMemory,
            fault => Status::Capture(fault),
        }
    }
}

impl From<StoreFault> for Status {
    ghost use Rattle.switch_runner.specs.Causes.{answer_of_store};

    ghost from_gives = { λ fault e. e ≡ answer_of_store fault };

    fn from(fault: StoreFault) -> Status {
        match fault {
            StoreFault::Failed => Status::ReadFault,
            StoreFault::NoMemory => Status::NoMemory,
        }
    }
}
