//! Announcements and services.

use crate::figure::{Figure, Trouble};
use crate::queue::{ARRIVALS, BATCH, Queue, SOURCES};
use mp5_words::NoMemory;
use place_queue::Place;
use std::alloc::Global;
use std::rt::Clock;
use std::time::Instant;

/// The figures of announcements with a unit, without one, and of services.
#[derive(Clone, Copy)]
pub struct Visits {
    pub given: Figure,
    pub passed: Figure,
    pub served: Figure,
}

/// Measures a queue of places.
pub fn measure(clock: &impl Clock, alloc: Global) -> Result<Visits, Trouble> {
    let (given, served) = measure_given(clock, Queue::new(alloc)?)?;
    let passed = measure_passed(clock, Queue::new(alloc)?)?;
    Ok(Visits {
        given,
        passed,
        served,
    })
}

fn measure_given(clock: &impl Clock, mut queue: Queue) -> Result<(Figure, Figure), Trouble> {
    let mut given = Figure::none();
    let mut served = Figure::none();
    for _ in 0..ARRIVALS / BATCH {
        let start = Instant::now(clock)?;
        fill(&mut queue);
        given.add(clock, start, BATCH, 0)?;
        let start = Instant::now(clock)?;
        let sum = drain(&mut queue);
        served.add(clock, start, BATCH, sum)?;
    }
    Ok((given, served))
}

fn measure_passed(clock: &impl Clock, mut queue: Queue) -> Result<Figure, Trouble> {
    let mut passed = Figure::none();
    for _ in 0..ARRIVALS / BATCH {
        let start = Instant::now(clock)?;
        pass(&mut queue);
        passed.add(clock, start, BATCH, 0)?;
    }
    Ok(passed)
}

fn fill(queue: &mut Queue) {
    for n in 0..BATCH {
        queue.announce(n, Some(n));
    }
}

fn pass(queue: &mut Queue) {
    for n in 0..BATCH {
        queue.announce(n, None);
    }
}

fn drain(queue: &mut Queue) -> u32 {
    let mut sum: u32 = 0;
    for _ in 0..BATCH {
        sum = sum.wrapping_add(queue.serve());
    }
    sum
}

/// Measures plain loops over the same arrays.
pub fn plain(clock: &impl Clock, alloc: Global) -> Result<Visits, Trouble> {
    let mut places = vec![in alloc; NO_PLACE; BATCH as usize].map_err(NoMemory::from)?;
    let mut given = Figure::none();
    let mut passed = Figure::none();
    let mut served = Figure::none();
    for _ in 0..ARRIVALS / BATCH {
        let start = Instant::now(clock)?;
        let sum = plain_fill(&mut places);
        given.add(clock, start, BATCH, sum)?;
        let start = Instant::now(clock)?;
        let sum = plain_drain(&places);
        served.add(clock, start, BATCH, sum)?;
        let start = Instant::now(clock)?;
        let sum = plain_pass(sum);
        passed.add(clock, start, BATCH, sum)?;
    }
    Ok(Visits {
        given,
        passed,
        served,
    })
}

const NO_PLACE: Place = Place {
    t: 0,
    unit: 0,
    source: 0,
};

// Stores a place and a floor on each turn.
fn plain_fill(places: &mut [Place]) -> u32 {
    let mut floors = [0u32; 4];
    let mut t: u32 = 0;
    for place in places.iter_mut() {
        let source = t % SOURCES;
        *place = Place { t, unit: t, source };
        t = t.wrapping_add(1);
        floors[source as usize] = t;
    }
    floors[0].wrapping_add(floors[3])
}

// Stores a floor on each turn, and compares.
fn plain_pass(first: u32) -> u32 {
    let mut floors = [0u32; 4];
    let mut least = first;
    for n in 0..BATCH {
        let t = first.wrapping_add(n);
        floors[(t % SOURCES) as usize] = t.wrapping_add(SOURCES);
        if t == least {
            least = t.wrapping_add(1);
        }
    }
    least.wrapping_add(floors[1])
}

// Reads a place on each turn, and counts by source.
fn plain_drain(places: &[Place]) -> u32 {
    let mut waiting = [1024u32; 4];
    let mut sum: u32 = 0;
    for place in places {
        let source = (place.source % SOURCES) as usize;
        waiting[source] = waiting[source].wrapping_sub(1);
        sum = sum.wrapping_add(place.unit);
    }
    sum.wrapping_add(waiting[2])
}
