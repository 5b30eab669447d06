//! Bytes that are collected before they are written.
ghost use Rattle.std.specs.Prelude.{◌≡◌, ◌≤◌, ◌<◌, ◌+◌, ◌++◌, ℕ, List, [], length, IfOk, OnOk, OnErr, vec_len, vec_capacity};
ghost use Rattle.std.specs.Bool.{OnTrue, OnFalse};
ghost use Rattle.switch_runner.specs.Outside.{Grew, Stopped};
ghost use Rattle.switch_runner.specs.Writing.{Puts, at};

use crate::outside::{Failed, Sink};
use crate::transfer::write_all;
use std::alloc::{AllocError, Global};
use std::marker::Model;

// How many bytes a block has room for.
const ROOM: usize = 65536;

/// Bytes that wait to be written together.
#[derive(Drop)]
pub(crate) struct Block {
    bytes: Vec<u8>,
}

impl Model for Block {
    ghost Value = { List ℕ };

    ghost view = { λ b. b.bytes.items };

    ghost invariant = { λ b. (65536 ≤ vec_capacity b.bytes) × (vec_len b.bytes ≤ 65536) };
}

impl Block {
    /// An empty block with room for 64 KiB.
    pub(crate) fn new(alloc: Global) -> Result<Block, AllocError>
        ensures { IfOk result (λ b. b ≡ []) }
    {
        Ok(Block {
            bytes: Vec::with_capacity(alloc, ROOM)?,
        })
    }

    /// Adds a piece, and writes the block first where the piece has no room in it. A piece that is
    /// larger than the block is written by itself. Takes no memory.
    #[inline]
    pub(crate) fn put<K: Sink>(&mut self, out: &mut K, piece: &[u8]) -> Result<(), Failed>
        ensures { Puts piece.now
            (at self.old (K.seen out.old)) (at self.new (K.seen out.new)) result }
    {
        if self.add(piece) {
            return Ok(());
        }
        self.put_past(out, piece)
    }

    // Puts a piece that has no room in the block. It is apart so that `put` is short where it is called.
    #[cold]
    #[inline(never)]
    fn put_past<K: Sink>(&mut self, out: &mut K, piece: &[u8]) -> Result<(), Failed>
        ensures { Puts piece.now
            (at self.old (K.seen out.old)) (at self.new (K.seen out.new)) result }
    {
        self.flush(out)?;
        if self.add(piece) {
            return Ok(());
        }
        write_all(out, piece)
    }

    /// Writes what waits.
    pub(crate) fn flush<K: Sink>(&mut self, out: &mut K) -> Result<(), Failed>
        ensures ok { OnOk result (Grew self.old (K.seen out.old) (K.seen out.new)) }
        ensures empty { OnOk result (self.new ≡ []) }
        ensures err { OnErr result (Stopped self.old (K.seen out.old) (K.seen out.new)) }
        ensures left { OnErr result (self.new ≡ self.old) }
    {
        write_all(out, self.bytes.as_slice())?;
        self.bytes.clear();
        Ok(())
    }

    // Adds a piece where there is room for it, and says whether there was.
    #[inline]
    fn add(&mut self, piece: &[u8]) -> bool
        ensures added { OnTrue result (self.new ≡ self.old ++ piece.now) }
        ensures kept { OnFalse result (self.new ≡ self.old) }
    {
        if piece.len() > ROOM - self.bytes.len() {
            return false;
        }
        match self.bytes.extend_from_slice(piece) {
            Ok(()) => true,
            Err(AllocError) => unreachable!(),
        }
    }
}
