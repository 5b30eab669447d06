//! The real outside: files by their names, and the two standard streams. Both are proved against their
//! traits, and tell nothing of what they read or wrote.
ghost use Rattle.std.specs.Prelude.{◌≡◌, ◌<◌, ◌≤◌, ◌+◌, ℕ, List, length, take, IfOk, OnOk, OnErr, Some, is_some, true};
ghost use Rattle.std.specs.List.{position};
ghost use Rattle.switch_runner.specs.Faults.{Reads};
ghost use Rattle.switch_runner.specs.Outside.{Grew, Stopped};
ghost use Rattle.switch_runner.specs.Memory.{named, faults_of, counts_seen, untold_seen};
ghost use Rattle.switch_runner.specs.declared.limits.TheConstants.{MAX_CAPTURE};

use crate::memory::{NamedBytes, place_of};
use crate::outside::{Failed, Sink, Store, StoreFault};
use mp5_words::Name;
use std::alloc::{AllocError, Global};
use std::io::{Read, Seek, SeekFrom, Stderr, Stdout};
use std::rt::Files;
use std::{fs, io};

// The file that was read last, and where it stands.
#[derive(Drop)]
struct LastFile<F> {
    place: usize,
    file: F,
    at: u64,
}

/// The files of the system as a store. The file that was read last stays open.
#[derive(Drop)]
pub struct FileStore<R: Files> {
    rt: R,
    // The names asked for so far, each with its count; their bytes aren't kept.
    names: Vec<NamedBytes>,
    last: Option<LastFile<R::File>>,
}

impl<R: Files + AllocGlobal> FileStore<R> {
    /// A store of the files that `rt` opens.
    pub fn new(rt: R) -> FileStore<R>
        ensures { (name : List ℕ) → (⟦<FileStore<R> as Store>⟧.seen result).faults name ≡ 0 }
    {
        let names = Vec::new(rt.alloc());
        FileStore {
            rt,
            names,
            last: None,
        }
    }
}

impl<R: Files + AllocGlobal> Store for FileStore<R> {
    ghost seen = { λ store. counts_seen store.names.items };

    // A count rises only where the read of its name fails.
    fn read_at(&mut self, name: &str, at: u64, into: &mut [u8]) -> Result<usize, StoreFault>
        requires { at ≤ MAX_CAPTURE + 1 }
        ensures within { IfOk result (λ n. n ≤ length into.new) }
        ensures reads { Reads name.now (counts_seen self.old.names.items)
            (counts_seen self.new.names.items) result }
        ensures quiet { OnOk result
            (faults_of self.new.names.items name.now ≡ faults_of self.old.names.items name.now) }
        ensures listed { OnOk result
            (is_some (position (named name.now) self.new.names.items) ≡ true) }
    {
        let place = listed(self.rt.alloc(), &mut self.names, name)?;
        match read_piece(&self.rt, &mut self.last, place, name, at, into) {
            Ok(count) => Ok(count),
            Err(_) => {
                let file = &mut self.names[place];
                file.count_fault();
                Err(StoreFault::Failed)
            }
        }
    }
}

// The place of a name in the list, to which it is added where it doesn't stand there.
fn listed(alloc: Global, names: &mut Vec<NamedBytes>, name: &str) -> Result<usize, AllocError>
    ensures place { IfOk result (λ i. position (named name.now) names.new.items ≡ Some i) }
    ensures counts { (other : List ℕ)
        → faults_of names.new.items other ≡ faults_of names.old.items other }
{
    match place_of(names, name) {
        Some(place) => Ok(place),
        None => {
            let place = names.len();
            let bytes = Vec::from_slice(alloc, name.as_bytes())?;
            let file = NamedBytes::new(Name::new(bytes), Vec::new(alloc));
            names.push(file)?;
            Ok(place)
        }
    }
}

// Reads bytes of the file from `at` on. It is opened, or moved, only where it doesn't stand there.
fn read_piece<R: Files>(
    rt: &R,
    last: &mut Option<LastFile<R::File>>,
    place: usize,
    name: &str,
    at: u64,
    into: &mut [u8],
) -> io::Result<usize>
    ensures { IfOk result (λ n. n ≤ length into.new) }
{
    let mut open = match last.take() {
        Some(open) if open.place == place => open,
        _ => LastFile {
            place,
            file: fs::open(rt, name)?,
            at: 0,
        },
    };
    if open.at != at {
        open.file.seek(SeekFrom::Start(at))?;
    }
    let count = open.file.read(into)?;
    open.at = at.saturating_add(count as u64);
    *last = Some(open);
    Ok(count)
}

// A standard stream. Neither keeps bytes back: each write is a write of the system.
#[derive(Clone, Copy)]
enum Stream {
    Output(Stdout),
    Errors(Stderr),
}

/// A standard stream as a sink.
#[derive(Drop)]
pub struct OutSink {
    stream: Stream,
    faults: u64,
}

impl OutSink {
    /// Standard output.
    pub fn output(to: Stdout) -> OutSink
        ensures { (⟦<OutSink as Sink>⟧.seen result).faults ≡ 0 }
    {
        OutSink {
            stream: Stream::Output(to),
            faults: 0,
        }
    }

    /// Standard error.
    pub fn errors(to: Stderr) -> OutSink
        ensures { (⟦<OutSink as Sink>⟧.seen result).faults ≡ 0 }
    {
        OutSink {
            stream: Stream::Errors(to),
            faults: 0,
        }
    }
}

impl Sink for OutSink {
    ghost seen = { λ sink. untold_seen sink.faults };

    // The count rises only where the write fails.
    fn write(&mut self, piece: &[u8]) -> Result<usize, Failed>
        ensures within { IfOk result (λ n. n ≤ length piece.now) }
        ensures some { IfOk result (λ n. 0 < length piece.now → 0 < n) }
        ensures ok { IfOk result (λ n. Grew (take n piece.now)
            (untold_seen self.old.faults) (untold_seen self.new.faults)) }
        ensures err { OnErr result
            (Stopped piece.now (untold_seen self.old.faults) (untold_seen self.new.faults)) }
        ensures quiet { OnOk result (self.new.faults ≡ self.old.faults) }
    {
        let written = match self.stream {
            Stream::Output(to) => to.write_some(piece),
            Stream::Errors(to) => to.write_some(piece),
        };
        match written {
            Ok(count) if count > 0 || piece.is_empty() => Ok(count),
            _ => {
                self.faults = self.faults.saturating_add(1);
                Err(Failed)
            }
        }
    }
}

#[cfg(test)]
mod tests {
    use super::*;
    use std::test::Fail;

    #[test]
    fn files_are_read_from_any_place(rt: HostRuntime) -> Result<(), Fail> {
        fs::write(&rt, "digits", "0123456789")?;
        fs::write(&rt, "letters", "abc")?;
        let mut store = FileStore::new(rt);
        let mut piece = [0u8; 4];
        let cases = [
            ("digits", 0u8, "0123"),
            ("digits", 4, "4567"),
            ("digits", 8, "89"),
            ("digits", 10, ""),
            ("letters", 1, "bc"),
            ("digits", 3, "3456"),
            ("digits", 20, ""),
        ];
        for (name, at, want) in cases {
            let count = store.read_at(name, u64::from(at), &mut piece)?;
            assert_eq!(rt; &piece[..count], want.as_bytes(), "{name} at {at}");
        }
        let missing = store.read_at("nowhere", 0, &mut piece);
        assert_eq!(rt; missing, Err(StoreFault::Failed));
        let folder = store.read_at(".", 0, &mut piece);
        assert_eq!(rt; folder, Err(StoreFault::Failed));
        assert_eq!(rt; store.read_at("letters", 0, &mut piece)?, 3);
        fs::remove_file(&rt, "digits")?;
        fs::remove_file(&rt, "letters")?;
        Ok(())
    }

    #[test]
    fn the_standard_streams_take_bytes(rt: HostRuntime) -> Result<(), Fail> {
        for mut sink in [OutSink::output(rt.stdout()), OutSink::errors(rt.stderr())] {
            assert_eq!(rt; sink.write(b"taken\n")?, 6);
            assert_eq!(rt; sink.write(b"")?, 0);
        }
        Ok(())
    }
}
