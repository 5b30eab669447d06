//! Stores and sinks in memory, for tests and trials.
ghost use Rattle.std.specs.Prelude.{◌≡◌, ◌≤◌, ◌<◌, ◌+◌, ◌-◌, ◌^◌, ◌==◌, true, ℕ, List, length, take, drop, min, Ok, IfOk, OnOk, OnErr, IsErr};
ghost use Rattle.std.specs.List.{position, list_any};
ghost use Rattle.switch_runner.specs.Outside.{ReadsPiece, Grew, Stopped};
ghost use Rattle.switch_runner.specs.Faults.{Reads};
ghost use Rattle.switch_runner.specs.Memory.{NamedFile, named, file_of, faults_of, files_seen, sure_seen, untold_seen, Shelf, Basin, basin_seen, next, answer_of, reads_after, poured, refused};
ghost use Rattle.switch_runner.specs.declared.limits.TheConstants.{MAX_CAPTURE};

use crate::outside::{Failed, Sink, Store, StoreFault};
use mp5_words::Name;
use std::alloc::AllocError;
use std::marker::Model;

/// A named list of bytes, with a count of the reads of it that failed.
#[derive(Drop)]
pub struct NamedBytes {
    name: Name,
    bytes: Vec<u8>,
    faults: u64,
}

impl Model for NamedBytes {
    ghost Value = { NamedFile };

    ghost view = { λ file. record {
      name = file.name;
      bytes = file.bytes.items;
      faults = file.faults;
    } };
}

impl NamedBytes {
    /// The bytes under this name; no read of them has failed.
    pub fn new(name: Name, bytes: Vec<u8>) -> NamedBytes
        ensures { result ≡ record { name = name; bytes = bytes.items; faults = 0 } }
    {
        NamedBytes {
            name,
            bytes,
            faults: 0,
        }
    }

    fn is_named(&self, name: &str) -> bool
        ensures { result ≡ named name.now self.now }
    {
        self.name.bytes() == name.as_bytes()
    }

    // Puts the bytes from `at` on into a prefix of `into`, and says how many.
    fn copy_from(&self, at: u64, into: &mut [u8]) -> usize
        ensures count { result ≡ min (length into.old) (length self.now.bytes - at) }
        ensures copied { take result into.new ≡ take result (drop at self.now.bytes) }
    {
        let start = self.bytes.len().min(at as usize);
        let rest = &self.bytes[start..];
        let count = into.len().min(rest.len());
        into[..count].copy_from_slice(&rest[..count]);
        count
    }

    // Counts a read that failed; the count stands still at its type's end.
    pub(crate) fn count_fault(&mut self)
        ensures risen { self.new
            ≡ record self.old { faults = min (self.old.faults + 1) (2 ^ 64 - 1) } }
        ensures more { self.old.faults ≤ self.new.faults }
    {
        self.faults = self.faults.saturating_add(1);
    }
}

// The place of the first file of this name.
pub(crate) fn place_of(files: &[NamedBytes], name: &str) -> Option<usize>
    ensures { result ≡ position (named name.now) files.now }
{
    files.iter().position(|file| file.is_named(name))
}

/// Named bytes as a store. A name that isn't listed is empty, and reads of it never fail; of two files
/// with one name the first counts.
#[derive(Drop)]
pub struct MemoryStore {
    files: Vec<NamedBytes>,
    most: u32,
    fails: Vec<u64>,
    reads: u64,
}

impl Model for MemoryStore {
    ghost Value = { Shelf };

    ghost view = { λ store. record {
      files = store.files.items;
      most = store.most;
      fails = store.fails.items;
      reads = store.reads;
    } };

    ghost invariant = { λ store. 0 < store.most };
}

impl MemoryStore {
    /// A store of these files. A read gives at most `most` bytes. Reads of listed names are numbered
    /// from 1, and those whose numbers stand in `fails` fail.
    pub fn new(files: Vec<NamedBytes>, most: u32, fails: Vec<u64>) -> MemoryStore
        requires { 0 < most }
        ensures { result
            ≡ record { files = files.items; most = most; fails = fails.items; reads = 0 } }
    {
        MemoryStore {
            files,
            most,
            fails,
            reads: 0,
        }
    }
}

impl Store for MemoryStore {
    ghost seen = { λ store. files_seen store.files };

    fn read_at(&mut self, name: &str, at: u64, into: &mut [u8]) -> Result<usize, StoreFault>
        requires { at ≤ MAX_CAPTURE + 1 }
        ensures piece { IfOk result
            (λ n. ReadsPiece (file_of self.old.files name.now).bytes at n into.new) }
        ensures reads { Reads name.now
            (files_seen self.old.files) (files_seen self.new.files) result }
        // The count of the name rises only where the read fails, and then by one.
        ensures quiet { OnOk result
            (faults_of self.new.files name.now ≡ faults_of self.old.files name.now) }
        ensures counted { OnErr result
            (faults_of self.new.files name.now ≡ next (faults_of self.old.files name.now)) }
        ensures answer { result ≡ answer_of self.old name.now at (length into.old) }
        ensures numbered { self.new.reads ≡ reads_after self.old name.now }
        ensures kept { (self.new.most ≡ self.old.most) × (self.new.fails ≡ self.old.fails) }
    {
        let Some(place) = place_of(&self.files, name) else {
            return Ok(0);
        };
        let file = &mut self.files[place];
        self.reads = self.reads.saturating_add(1);
        if self.fails.contains(&self.reads) {
            file.count_fault();
            return Err(StoreFault::Failed);
        }
        let room = into.len().min(self.most as usize);
        Ok(file.copy_from(at, &mut into[..room]))
    }
}

/// A sink in memory.
#[derive(Drop)]
pub struct MemorySink {
    bytes: Vec<u8>,
    most: u32,
    fails: Vec<u64>,
    writes: u64,
    faults: u64,
}

impl Model for MemorySink {
    ghost Value = { Basin };

    ghost view = { λ sink. record {
      bytes = sink.bytes.items;
      most = sink.most;
      fails = sink.fails.items;
      writes = sink.writes;
      faults = sink.faults;
    } };

    ghost invariant = { λ sink. 0 < sink.most };
}

impl MemorySink {
    /// A sink that has taken these bytes. A write takes at most `most` bytes. Writes are numbered from
    /// 1, and those whose numbers stand in `fails` fail, as does a write for which memory runs out.
    pub fn new(bytes: Vec<u8>, most: u32, fails: Vec<u64>) -> MemorySink
        requires { 0 < most }
        ensures { result ≡ record {
          bytes = bytes.items;
          most = most;
          fails = fails.items;
          writes = 0;
          faults = 0;
        } }
    {
        MemorySink {
            bytes,
            most,
            fails,
            writes: 0,
            faults: 0,
        }
    }

    /// The bytes taken, after those with which the sink was made.
    pub fn bytes(&self) -> &[u8]
        ensures { result.now ≡ self.now.bytes }
    {
        &self.bytes
    }
}

impl Sink for MemorySink {
    ghost seen = { λ sink. basin_seen sink };

    fn write(&mut self, piece: &[u8]) -> Result<usize, Failed>
        ensures some { IfOk result (λ n. 0 < length piece.now → 0 < n) }
        ensures ok { IfOk result
            (λ n. Grew (take n piece.now) (basin_seen self.old) (basin_seen self.new)) }
        ensures err { OnErr result (Stopped piece.now (basin_seen self.old) (basin_seen self.new)) }
        ensures taken { IfOk result (λ n. n ≡ min (length piece.now) self.old.most) }
        ensures after { OnOk result (self.new ≡ poured self.old piece.now) }
        ensures after_failure { OnErr result (self.new ≡ refused self.old) }
        ensures fails { list_any (λ n. n == next self.old.writes) self.old.fails ≡ true
            → IsErr result }
    {
        self.writes = self.writes.saturating_add(1);
        let count = piece.len().min(self.most as usize);
        if !self.fails.contains(&self.writes)
            && self.bytes.extend_from_slice(&piece[..count]).is_ok()
        {
            return Ok(count);
        }
        self.faults = self.faults.saturating_add(1);
        Err(Failed)
    }
}

/// Named bytes as a store that never fails. A name that isn't listed is empty; of two files with one
/// name the first counts.
#[derive(Drop)]
pub struct SureStore {
    files: Vec<NamedBytes>,
}

impl Model for SureStore {
    ghost Value = { List NamedFile };

    ghost view = { λ store. store.files.items };
}

impl SureStore {
    /// A store of these files.
    pub fn new(files: Vec<NamedBytes>) -> SureStore
        ensures { result ≡ files.items }
    {
        SureStore { files }
    }
}

impl Store for SureStore {
    ghost seen = { λ store. sure_seen store };

    fn read_at(&mut self, name: &str, at: u64, into: &mut [u8]) -> Result<usize, StoreFault>
        requires { at ≤ MAX_CAPTURE + 1 }
        ensures same { self.new ≡ self.old }
        ensures piece { IfOk result
            (λ n. ReadsPiece (file_of self.old name.now).bytes at n into.new) }
        ensures answer { result
            ≡ Ok (min (length into.old) (length (file_of self.old name.now).bytes - at)) }
    {
        match place_of(&self.files, name) {
            Some(place) => Ok(self.files[place].copy_from(at, into)),
            None => Ok(0),
        }
    }
}

/// A sink that takes each piece whole, keeps nothing and never fails.
#[derive(Drop)]
pub struct SureSink {}

impl SureSink {
    /// A sink that has taken nothing.
    pub fn new() -> SureSink {
        SureSink {}
    }
}

impl Sink for SureSink {
    ghost seen = { λ _. untold_seen 0 };

    fn write(&mut self, piece: &[u8]) -> Result<usize, Failed>
        ensures whole { result ≡ Ok (length piece.now) }
    {
        Ok(piece.len())
    }
}

#[cfg(test)]
mod tests {
    use super::*;
    use crate::block::Block;
    use crate::transfer::read_whole;
    use std::alloc::Global;
    use std::test::Fail;

    // A store with one file of twelve bytes.
    fn twelve_bytes(alloc: Global, most: u32, fails: &[u64]) -> Result<MemoryStore, AllocError>
        requires { 0 < most }
    {
        let name = Name::new(Vec::from_slice(alloc, b"text")?);
        let bytes = Vec::from_slice(alloc, b"twelve bytes")?;
        let files = vec![in alloc; NamedBytes::new(name, bytes)]?;
        Ok(MemoryStore::new(files, most, Vec::from_slice(alloc, fails)?))
    }

    #[test]
    fn a_file_is_read_to_its_end_or_one_byte_past_the_limit(rt: HostRuntime) -> Result<(), Fail> {
        let alloc = rt.alloc();
        for most in 1..14u32 {
            for (limit, want) in [
                (0u8, "t"),
                (5, "twelve"),
                (11, "twelve bytes"),
                (40, "twelve bytes"),
            ] {
                let mut store = twelve_bytes(alloc, most, &[])?;
                let text = read_whole(alloc, &mut store, "text", u64::from(limit))?;
                assert_eq!(rt;
                    text.as_slice(),
                    want.as_bytes(),
                    "{most} at a time, limit {limit}"
                );
            }
        }
        // One byte at a time, six reads find more than five bytes: a seventh isn't made.
        let mut store = twelve_bytes(alloc, 1, &[7])?;
        assert_eq!(rt;
            read_whole(alloc, &mut store, "text", 5)?.as_slice(),
            b"twelve".as_slice()
        );
        let mut store = twelve_bytes(alloc, 5, &[1])?;
        assert!(rt; read_whole(alloc, &mut store, "other", 9)?.is_empty());
        let mut store = SureStore::new(Vec::new(alloc));
        assert!(rt; read_whole(alloc, &mut store, "text", 9)?.is_empty());
        Ok(())
    }

    // Five bytes at a time the twelve take three reads, and a fourth finds the end.
    #[test]
    fn a_read_that_fails_is_answered(rt: HostRuntime) -> Result<(), Fail> {
        let alloc = rt.alloc();
        for failing in 1..6u64 {
            let mut store = twelve_bytes(alloc, 5, &[failing])?;
            match read_whole(alloc, &mut store, "text", 40) {
                Ok(text) => {
                    assert_eq!(rt; failing, 5);
                    assert_eq!(rt; text.as_slice(), b"twelve bytes".as_slice());
                }
                Err(fault) => {
                    assert!(rt; failing < 5);
                    assert_eq!(rt; fault, StoreFault::Failed);
                }
            }
        }
        Ok(())
    }

    // Three bytes at a time the eight take three writes.
    #[test]
    fn a_write_that_fails_leaves_a_front(rt: HostRuntime) -> Result<(), Fail> {
        let alloc = rt.alloc();
        for (failing, want) in [(1u64, ">"), (2, ">one"), (3, ">one, t"), (4, ">one, two")] {
            let fails = Vec::from_slice(alloc, &[failing])?;
            let mut sink = MemorySink::new(Vec::from_slice(alloc, b">")?, 3, fails);
            let mut block = Block::new(alloc)?;
            block.put(&mut sink, b"one, ")?;
            block.put(&mut sink, b"two")?;
            assert_eq!(rt; sink.bytes(), b">".as_slice());
            assert_eq!(rt; block.flush(&mut sink).is_ok(), failing == 4);
            assert_eq!(rt; sink.bytes(), want.as_bytes(), "write {failing} fails");
        }
        let mut block = Block::new(alloc)?;
        block.put(&mut SureSink::new(), b"kept nowhere")?;
        block.flush(&mut SureSink::new())?;
        Ok(())
    }
}
