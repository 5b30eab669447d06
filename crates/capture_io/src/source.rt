//! Which value of a record each field takes.

ghost use Rattle.std.specs.Prelude.{◌≡◌, ◌<◌, ◌^◌, pos, map, IfOk, IsOkUnless, FitsSigned};
ghost use Rattle.std.specs.Int.{w32};
ghost use Rattle.std.specs.List.{list_any};
ghost use Rattle.std.specs.Str.{bytes_eq};
ghost use Rattle.mp5_words.specs.Words.{word};
ghost use Rattle.capture_io.specs.Fields as spec;
ghost use Rattle.capture_io.specs.Header as header;

use crate::fault::CaptureFault;
use crate::frame::{byte_at, number32_at, port};
use mp5_words::{FieldNames, Name};
use std::alloc::Global;

/// Where a field's value comes from.
#[derive(Clone, Copy)]
pub enum Source {
    Arrival,
    OriginalLength,
    TypeOfService,
    TimeToLive,
    Protocol,
    SourceAddress,
    DestinationAddress,
    SourcePort,
    DestinationPort,
    Unfilled,
}

impl Source {
    /// The name of the field whose value is read here; no name where none is.
    pub fn name(self) -> &'static str
        ensures { result.now ≡ header.name_of self }
    {
        match self {
            Source::Arrival => "arrival",
            Source::OriginalLength => "len",
            Source::TypeOfService => "tos",
            Source::TimeToLive => "ttl",
            Source::Protocol => "proto",
            Source::SourceAddress => "saddr",
            Source::DestinationAddress => "daddr",
            Source::SourcePort => "sport",
            Source::DestinationPort => "dport",
            Source::Unfilled => "",
        }
    }

    /// The value of a record with this arrival, this original length, and these bytes from the IPv4
    /// header on.
    pub fn value(self, since: i32, original: u32, packet: &[u8]) -> i32
        ensures value { result ≡ header.value_in self since original packet.now }
        ensures fits { FitsSigned w32 result }
    {
        match self {
            Source::Arrival => since,
            Source::OriginalLength => as_word(original),
            Source::TypeOfService => i32::from(byte_at(packet, 1)),
            Source::TimeToLive => i32::from(byte_at(packet, 8)),
            Source::Protocol => i32::from(byte_at(packet, 9)),
            Source::SourceAddress => as_word(number32_at(packet, 12)),
            Source::DestinationAddress => as_word(number32_at(packet, 16)),
            Source::SourcePort => i32::from(port(packet, 0)),
            Source::DestinationPort => i32::from(port(packet, 2)),
            Source::Unfilled => 0,
        }
    }

    /// Whether the value is read from the IPv4 header and what follows it.
    pub fn is_in_packet(self) -> bool
        ensures { result ≡ spec.is_in_packet self }
    {
        !matches!(
            self,
            Source::Arrival | Source::OriginalLength | Source::Unfilled
        )
    }
}

// The word that differs from the number by a multiple of 2^32.
fn as_word(number: u32) -> i32
    ensures { result ≡ word (pos number) }
{
    number.cast_signed()
}

/// Whether one of the sources is read from the IPv4 header and what follows it.
pub fn reads_packet(sources: &[Source]) -> bool
    ensures { result ≡ list_any spec.is_in_packet sources.now }
{
    sources.iter().any(|source| source.is_in_packet())
}

/// The source of each field, in order of declaration.
pub fn sources_of(alloc: Global, names: &FieldNames) -> Result<Vec<Source>, CaptureFault>
    ensures sources { IfOk result (λ sources. sources.items ≡ map header.source names.now) }
    ensures memory { IsOkUnless result CaptureFault.NoMemory }
{
    let mut sources = Vec::new(alloc);
    for i in 0..names.count() {
        sources.push(source_of(names.name(i)))?;
    }
    Ok(sources)
}

// Where the values of fields are read.
const FILLED: [Source; 9] = [
    Source::Arrival,
    Source::OriginalLength,
    Source::TypeOfService,
    Source::TimeToLive,
    Source::Protocol,
    Source::SourceAddress,
    Source::DestinationAddress,
    Source::SourcePort,
    Source::DestinationPort,
];

// Where the value of a field of this name is read.
fn source_of(name: &Name) -> Source
    ensures { result ≡ header.source name.now }
{
    for source in FILLED {
        if is_named(name, source.name()) {
            return source;
        }
    }
    Source::Unfilled
}

fn is_named(name: &Name, text: &str) -> bool
    ensures { result ≡ bytes_eq name.now text.now }
{
    name.bytes() == text.as_bytes()
}
