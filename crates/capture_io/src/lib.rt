//! Classic captures: the bytes of a capture file as one list of field values per record.
//!
//! `read_capture` takes the bytes and the names of a program's fields, and gives a `Capture`, seen as
//! the list of the packets' fields. Its contract says which bytes are a capture and what each field is.
#![tactic(auto)]

mod capture;
mod encoding;
mod fault;
mod frame;
mod limits;
mod reading;
mod record;
mod source;

pub use capture::Capture;
pub use fault::CaptureFault;
pub use limits::{FILE_HEADER_LEN, MAX_CAPTURE, MAX_FRAME, MAX_RECORDS, RECORD_HEADER_LEN};
pub use reading::read_capture;
pub use source::{Source, sources_of};

#[cfg(test)]
mod tests;
