//! Reading a file whole, and writing bytes whole.
ghost use Rattle.std.specs.Prelude.{◌≡◌, ◌≤◌, ◌<◌, ◌+◌, length, take, vec_len, IfOk, IfSome, OnOk, OnErr};
ghost use Rattle.switch_runner.specs.Outside.{Grew, Stopped};
ghost use Rattle.switch_runner.specs.Faults.{Reads};
ghost use Rattle.switch_runner.specs.Transfer.{ReadsOn};
ghost use Rattle.switch_runner.specs.declared.limits.TheConstants.{MAX_CAPTURE};

use crate::outside::{Failed, Sink, Store, StoreFault};
use std::alloc::Global;

// The most bytes that one read or write moves.
const PIECE: usize = 65536;

/// Reads a file to its end, or to one byte past `limit`.
pub(crate) fn read_whole<S: Store>(
    alloc: Global,
    store: &mut S,
    name: &str,
    limit: u64,
) -> Result<Vec<u8>, StoreFault>
    requires { limit ≤ MAX_CAPTURE }
    ensures read { IfOk result (λ v. IfSome ((S.seen store.old).told name.now)
        (λ bytes. v.items ≡ take (limit + 1) bytes)) }
    ensures reads { Reads name.now (S.seen store.old) (S.seen store.new) result }
{
    let mut buffer = vec![in alloc; 0u8; PIECE]?;
    read_by(alloc, store, name, limit, buffer.as_mut_slice())
}

// Reads a file as `read_whole` does, in pieces that fit the buffer.
fn read_by<S: Store>(
    alloc: Global,
    store: &mut S,
    name: &str,
    limit: u64,
    buffer: &mut [u8],
) -> Result<Vec<u8>, StoreFault>
    requires limited { limit ≤ MAX_CAPTURE }
    requires room { length buffer.old ≡ PIECE }
    ensures read { IfOk result (λ v. IfSome ((S.seen store.old).told name.now)
        (λ bytes. v.items ≡ take (limit + 1) bytes)) }
    ensures reads { Reads name.now (S.seen store.old) (S.seen store.new) result }
{
    let most = limit as usize + 1;
    let mut text = Vec::new(alloc);
    while text.len() < most {
        let room = PIECE.min(most - text.len());
        if read_more(store, name, &mut buffer[..room], &mut text)? == 0 {
            return Ok(text);
        }
    }
    Ok(text)
}

// Reads a piece that goes on where the text ends, adds it to the text, and says how many bytes came.
fn read_more<S: Store>(
    store: &mut S,
    name: &str,
    piece: &mut [u8],
    text: &mut Vec<u8>,
) -> Result<usize, StoreFault>
    requires { vec_len text.old ≤ MAX_CAPTURE + 1 }
    ensures within { IfOk result (λ n. n ≤ length piece.new) }
    ensures longer { IfOk result (λ n. vec_len text.new ≡ vec_len text.old + n) }
    ensures grown { IfOk result (λ n. IfSome ((S.seen store.old).told name.now)
        (λ bytes. ReadsOn bytes text.old.items n (length piece.old) text.new.items)) }
    ensures reads { Reads name.now (S.seen store.old) (S.seen store.new) result }
{
    let count = store.read_at(name, text.len() as u64, piece)?;
    text.extend_from_slice(&piece[..count])?;
    Ok(count)
}

/// Writes all bytes, going on after a short write.
pub(crate) fn write_all<K: Sink>(out: &mut K, bytes: &[u8]) -> Result<(), Failed>
    ensures ok { OnOk result (Grew bytes.now (K.seen out.old) (K.seen out.new)) }
    ensures err { OnErr result (Stopped bytes.now (K.seen out.old) (K.seen out.new)) }
{
    let mut done = 0;
    while done < bytes.len() {
        done += write_more(out, &bytes[done..])?;
    }
    Ok(())
}

// Writes a prefix of the bytes, not longer than a piece, and says how many were taken.
fn write_more<K: Sink>(out: &mut K, bytes: &[u8]) -> Result<usize, Failed>
    ensures within { IfOk result (λ n. n ≤ length bytes.now) }
    ensures some { IfOk result (λ n. 0 < length bytes.now → 0 < n) }
    ensures ok { IfOk result (λ n. Grew (take n bytes.now) (K.seen out.old) (K.seen out.new)) }
    ensures err { OnErr result (Stopped bytes.now (K.seen out.old) (K.seen out.new)) }
{
    let room = PIECE.min(bytes.len());
    out.write(&bytes[..room])
}
