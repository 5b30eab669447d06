//! Reading a capture.

ghost use Rattle.std.specs.Prelude.{◌≡◌, ◌≢◌, ◌≤◌, ◌+◌, ◌^◌, ◌⊎◌, ℕ, ℤ, pos, ◌-ℤ◌, ◌++◌, List};
ghost use Rattle.std.specs.Prelude.{map, length, IfOk, IfErr, OnOk, IsOkUnless};
ghost use Rattle.std.specs.Int.{int_rem_euclid};
ghost use Rattle.std.specs.List.{list_any};
ghost use Rattle.capture_io.specs.declared.encoding.Encoding.{Encoding};
ghost use Rattle.capture_io.specs.ClassicCapture.{Record, IsCapture};
ghost use Rattle.capture_io.specs.Refusal.{Refuses, IsRefusedFor};
ghost use Rattle.capture_io.specs.Header.{headers};
ghost use Rattle.capture_io.specs.Header as header;
ghost use Rattle.capture_io.specs.Fields as spec;
ghost use Rattle.capture_io.specs.Reading.{Gives, map_ok, first_timestamp, records_of, capture_of};

use crate::capture::Capture;
use crate::encoding::Encoding;
use crate::fault::CaptureFault;
use crate::frame::ipv4;
use crate::limits::{FILE_HEADER_LEN, MAX_CAPTURE, MAX_FRAME, MAX_RECORDS, RECORD_HEADER_LEN};
use crate::record::{Stamp, after_file_header, first_timestamp, record_at};
use crate::source::{Source, reads_packet, sources_of};
use mp5_words::FieldNames;
use std::alloc::Global;

/// Reads a capture: a classic capture file of Ethernet frames, in either byte order, with timestamps in
/// microseconds or nanoseconds, as `IsCapture` says. Of each record the fields of these names are kept,
/// as `headers` says: `arrival` and `len` of the record; `tos`, `ttl`, `proto`, `saddr` and `daddr` of
/// the IPv4 header; `sport` and `dport` of TCP and UDP. Other names are 0.
///
/// It has at most 134,217,728 bytes and 262,144 records, and a record at most 262,144 captured bytes.
/// All other bytes are refused, and the refusal is the first, as `Refuses` says. `NoMemory` is for
/// memory alone.
pub fn read_capture(
    alloc: Global,
    bytes: &[u8],
    names: &FieldNames,
) -> Result<Capture, CaptureFault>
    // What is read are the fields of the records that the bytes are.
    ensures read { IfOk result (λ capture. (records : List Record)
        × IsCapture bytes.now records
        × (capture ≡ headers names.now records)) }
    // Bytes are refused only for what refuses them first, or memory ran out.
    ensures refused { IfErr result (λ fault.
        fault ≢ CaptureFault.NoMemory → Refuses bytes.now fault) }

    // A capture is read, unless memory runs out.
    ensures accepts { (records : List Record)
        → IsCapture bytes.now records
        → IsOkUnless result CaptureFault.NoMemory }
    // What refuses the bytes is what they are refused for, unless memory runs out.
    ensures refuses { (fault : CaptureFault) → Refuses bytes.now fault → IsRefusedFor result fault }

    // All bytes are a capture or refused.
    ensures decides { (all : List ℕ)
        → ((records : List Record) × IsCapture all records)
        ⊎ ((fault : CaptureFault) × Refuses all fault) }
    // None are both, and none are two captures or have two refusals.
    ensures one_answer { (all : List ℕ) (records : List Record) (fault : CaptureFault)
        → IsCapture all records
        → ¬ (Refuses all fault) }
    ensures one_capture { (all : List ℕ) (a b : List Record)
        → IsCapture all a
        → IsCapture all b
        → a ≡ b }
    ensures one_refusal { (all : List ℕ) (a b : CaptureFault)
        → Refuses all a
        → Refuses all b
        → a ≡ b }
{
    read(alloc, bytes, names)
}

#[tactic(auto, unfolding(crate::specs::Reading::capture_of))]
fn read(alloc: Global, bytes: &[u8], names: &FieldNames) -> Result<Capture, CaptureFault>
    ensures { Gives {Y = List (List ℤ)} (λ capture. capture) result
        (map_ok (headers names.now) (capture_of bytes.now)) }
{
    let (encoding, records) = after_file_header(bytes)?;
    let sources = sources_of(alloc, names)?;
    let (words, packets) = words_of(alloc, encoding, records, &sources)?;
    Ok(Capture {
        words,
        width: names.count(),
        packets,
    })
}

// The fields of the records that all of the bytes are, one record's after another's, and how many
// records there are. The bytes come after the file header.
fn words_of(
    alloc: Global,
    encoding: Encoding,
    bytes: &[u8],
    sources: &[Source],
) -> Result<(Vec<i32>, u32), CaptureFault>
    requires { FILE_HEADER_LEN + length bytes.now ≤ MAX_CAPTURE }
    ensures { Gives {Y = List ℤ × ℕ} (λ x. (x.0.items, x.1)) result
        (map_ok {B = List ℤ × ℕ}
        (λ rs. (spec.words sources.now (first_timestamp encoding bytes.now) rs, length rs))
        (records_of encoding MAX_RECORDS FILE_HEADER_LEN bytes.now)) }
{
    let start = first_timestamp(encoding, bytes);
    let in_packet = reads_packet(sources);
    let mut words = Vec::new(alloc);
    let mut count = 0;
    let mut at = FILE_HEADER_LEN as u32;
    let mut rest = bytes;
    while !rest.is_empty() {
        if count == MAX_RECORDS {
            return Err(CaptureFault::TooMany(count + 1));
        }
        let (stamp, frame, after) = record_at(encoding, at, rest)?;
        push_record(&mut words, sources, in_packet, start, stamp, frame)?;
        count += 1;
        at += (RECORD_HEADER_LEN + frame.len()) as u32;
        rest = after;
    }
    Ok((words, count))
}

// Appends the fields of a record of a capture that starts at this timestamp. The IPv4 header is looked for
// if a field wants it.
fn push_record(
    words: &mut Vec<i32>,
    sources: &[Source],
    in_packet: bool,
    start: u64,
    stamp: Stamp,
    frame: &[u8],
) -> Result<(), CaptureFault>
    requires wanted { in_packet ≡ list_any spec.is_in_packet sources.now }
    requires limit { length frame.now ≤ MAX_FRAME }
    ensures fields { let record_of : Record = record {
      timestamp = stamp.timestamp;
      original = stamp.original;
      frame = frame.now;
    } in OnOk result (words.new.items
        ≡ words.old.items ++ spec.fields sources.now start record_of) }
    ensures memory { IsOkUnless result CaptureFault.NoMemory }
{
    let packet = if in_packet { ipv4(frame) } else { &[] };
    push_fields(
        words,
        sources,
        since(start, stamp.timestamp),
        stamp.original,
        packet,
    )
}

// How many microseconds after the start a timestamp is, modulo 2^31. That divides 2^64, at which the
// difference may have wrapped.
fn since(start: u64, timestamp: u64) -> i32
    ensures { result ≡ int_rem_euclid (pos timestamp -ℤ pos start) (pos (2 ^ 31)) }
{
    (timestamp.wrapping_sub(start) % (1 << 31)) as i32
}

// Appends a record's fields.
fn push_fields(
    words: &mut Vec<i32>,
    sources: &[Source],
    since: i32,
    original: u32,
    packet: &[u8],
) -> Result<(), CaptureFault>
    ensures fields { OnOk result (words.new.items ≡ words.old.items
        ++ map (λ s. header.value_in s since original packet.now) sources.now) }
    ensures memory { IsOkUnless result CaptureFault.NoMemory }
{
    for source in sources {
        words.push(source.value(since, original, packet))?;
    }
    Ok(())
}
