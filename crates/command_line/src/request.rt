use mp5_words::Settings;
use thiserror::Error;

/// How a program is run.
#[derive(Clone, Copy, Debug, PartialEq, Eq)]
pub enum Mode {
    /// One packet after another, in order of arrival, on one thread.
    One,
    /// Not at all: what is told is the program's code, and where each header has its places.
    Plan,
    /// On a switch of several pipelines, which take turns on one thread.
    Serial,
    /// On a switch of several pipelines, each on a thread of its own.
    Run,
}

/// The most packets of a capture that is made.
pub const MAX_MADE: u32 = 262_144;

/// What the word for the capture names.
#[derive(Clone, Copy, Debug, PartialEq, Eq)]
pub enum CaptureName<'a> {
    /// A file.
    File(&'a str),
    /// A capture that is made, as `gen:COUNT:SEED`.
    Made {
        /// How many packets it has, at most `MAX_MADE`.
        count: u32,
        /// Where its generator starts from.
        seed: u32,
    },
}

/// What the words ask for: how to run, the program and the capture, the numbers of a switch, and what is told.
#[derive(Clone, Copy, Debug)]
pub struct Request<'a> {
    /// How to run.
    pub mode: Mode,
    /// The name of the program's file.
    pub program: &'a str,
    /// The capture.
    pub capture: CaptureName<'a>,
    /// How the switch is run.
    pub settings: Settings,
    /// Where the order of the switch's steps starts from.
    pub seed: u32,
    /// Whether the report of a switch has its trace.
    pub trace: bool,
    /// Whether a report tells sums in place of the packets and the cells.
    pub brief: bool,
}

/// Why no request comes of the words.
#[derive(Clone, Copy, Debug, PartialEq, Eq, Error)]
pub enum WordsFault {
    /// They ask for help.
    #[error("help is asked for")]
    Help,
    /// The command doesn't take them.
    #[error("the words aren't taken")]
    Words,
    /// Memory ran out.
    #[error("out of memory")]
    NoMemory,
}
