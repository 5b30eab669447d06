//! Making a capture.

ghost use Rattle.std.specs.Prelude.{◌≡◌, ◌<◌, ◌≤◌, ◌*◌, ◌++◌, ◌^◌, map, length, pos, IfOk, OnOk};
ghost use Rattle.std.specs.List.{flat_map, range_with_len};
ghost use Rattle.load_maker.specs.Made as spec;
ghost use Rattle.load_maker.specs.Made.{made_headers};

use crate::packet::{Packet, next_words, wait};
use capture_io::{Capture, MAX_RECORDS, Source, sources_of};
use mp5_words::{FieldNames, NoMemory};
use rand_pcg::Lcg64Xsh32;
use std::alloc::{AllocError, Global};

/// Makes a capture of `n` packets from a seed, with the fields of these names, as `made_headers` says.
pub fn make_capture(
    alloc: Global,
    n: u32,
    seed: u64,
    names: &FieldNames,
) -> Result<Capture, NoMemory>
    requires { n ≤ MAX_RECORDS }
    ensures { IfOk result (λ capture. capture ≡ made_headers n seed names.now) }
{
    let width = names.count();
    let sources = match sources_of(alloc, names) {
        Ok(sources) => sources,
        Err(_) => return Err(NoMemory),
    };
    let words = words_of(alloc, n, seed, &sources)?;
    Ok(Capture::of(n, width, words))
}

// The fields of the packets, one packet's after another's.
fn words_of(alloc: Global, n: u32, seed: u64, sources: &[Source]) -> Result<Vec<i32>, AllocError>
    requires packets { n ≤ MAX_RECORDS }
    requires width { length sources.now ≤ 32 }
    ensures { IfOk result (λ words.
        words.items ≡ flat_map (spec.fields seed sources.now) (range_with_len 0 n)) }
{
    let mut words = Vec::with_capacity(alloc, n as usize * sources.len())?;
    let mut generator = start(seed);
    let mut arrival = 0;
    for t in 0..n {
        let drawn = next_words(&mut generator);
        arrival += wait(t, drawn);
        push_fields(&mut words, sources, Packet::of(drawn, arrival))?;
    }
    Ok(words)
}

// The generator of a seed.
#[tactic(auto, unfolding(crate::specs::Made::before, rand_pcg::specs::Lcg::state_after))]
fn start(seed: u64) -> Lcg64Xsh32
    ensures { result ≡ spec.before seed 0 }
{
    Lcg64Xsh32::new(seed, 54)
}

// Appends a packet's fields.
fn push_fields(words: &mut Vec<i32>, sources: &[Source], packet: Packet) -> Result<(), AllocError>
    requires { packet.arrival < 2 ^ 31 }
    ensures { OnOk result (words.new.items
        ≡ words.old.items ++ map (λ s. pos (spec.value packet s)) sources.now) }
{
    for source in sources {
        words.push(packet.value(*source))?;
    }
    Ok(())
}
