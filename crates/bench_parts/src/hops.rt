//! Hops over a lane.

use crate::figure::{Figure, Trouble};
use mp5_words::NoMemory;
use pair_lane::{Carried, Receiver, Sender, pair};
use std::alloc::Global;
use std::rt::Clock;
use std::sync::Wait;
use std::thread::{self, Threads};
use std::time::Instant;

/// A message of the size of a packet's: 132 bytes. Any message fits the lane.
#[derive(Clone, Copy)]
pub struct Message {
    number: u32,
    fields: [u32; 16],
    taken: [u32; 16],
}

impl Carried for Message {
    ghost use Rattle.std.specs.Prelude.{⊤};

    type Key = ();

    ghost fits = { λ key earlier item. ⊤ };
}

/// How many messages a lane and a ring hold.
const ROOM: u32 = 64;

/// How many messages hop.
const HOPS: u32 = 1_000_000;

fn numbered(number: u32) -> Message {
    Message {
        number,
        fields: [number; 16],
        taken: [1; 16],
    }
}

// What is read of a message.
fn read(message: &Message) -> u32 {
    message
        .number
        .wrapping_add(message.fields[9])
        .wrapping_add(message.taken[15])
}

/// Measures a send and a receive on one thread.
pub fn alone<R: Wait + Clock>(rt: &R, alloc: Global) -> Result<Figure, Trouble> {
    let (mut sender, mut receiver) = pair::<Message, R>(rt, alloc, ROOM, ())?;
    let mut hops = Figure::none();
    let start = Instant::now(rt)?;
    let sum = hop(rt, &mut sender, &mut receiver);
    hops.add(rt, start, HOPS, sum)?;
    Ok(hops)
}

fn hop<R: Wait>(rt: &R, sender: &mut Sender<Message>, receiver: &mut Receiver<Message>) -> u32 {
    let mut sum: u32 = 0;
    for n in 0..HOPS {
        let _ = sender.send(rt, numbered(n));
        if let Some(item) = receiver.receive(rt) {
            sum = sum.wrapping_add(read(&item));
        }
    }
    sum
}

/// Measures messages that one thread sends and another receives.
pub fn across<R: Wait + Threads + Clock + Sync>(rt: &R, alloc: Global) -> Result<Figure, Trouble> {
    let (sender, receiver) = pair::<Message, R>(rt, alloc, ROOM, ())?;
    let mut hops = Figure::none();
    let start = Instant::now(rt)?;
    let (_, sum) = thread::join(
        rt,
        move || send_all(rt, sender),
        move || receive_all(rt, receiver),
    );
    hops.add(rt, start, HOPS, sum)?;
    Ok(hops)
}

// Sends each message as soon as there is room.
fn send_all<R: Wait>(rt: &R, mut sender: Sender<Message>) {
    for n in 0..HOPS {
        for _ in rt.forever() {
            if sender.send(rt, numbered(n)).is_ok() {
                break;
            }
            thread::yield_now();
        }
    }
}

// Receives as many messages.
fn receive_all<R: Wait>(rt: &R, mut receiver: Receiver<Message>) -> u32 {
    let mut sum: u32 = 0;
    for _ in 0..HOPS {
        for _ in rt.forever() {
            if let Some(item) = receiver.receive(rt) {
                sum = sum.wrapping_add(read(&item));
                break;
            }
            thread::yield_now();
        }
    }
    sum
}

/// Measures a plain copy into a ring and out again.
pub fn plain(clock: &impl Clock, alloc: Global) -> Result<Figure, Trouble> {
    let mut ring = vec![in alloc; numbered(0); ROOM as usize].map_err(NoMemory::from)?;
    let mut copies = Figure::none();
    let start = Instant::now(clock)?;
    let sum = copy(&mut ring);
    copies.add(clock, start, HOPS, sum)?;
    Ok(copies)
}

fn copy(ring: &mut [Message]) -> u32 {
    let mut sum: u32 = 0;
    for round in 0..HOPS / ROOM {
        for slot in ring.iter_mut() {
            *slot = numbered(round);
        }
        for slot in ring.iter() {
            sum = sum.wrapping_add(read(slot));
        }
    }
    sum
}
