//! A queue of places whose sources announce their arrivals in turn.
ghost use Rattle.std.specs.Prelude.{◌≡◌, ◌<◌};

use mp5_words::NoMemory;
use place_queue::Places;
use std::alloc::Global;
use std::marker::Model;

/// How many sources there are.
pub const SOURCES: u32 = 4;

/// How many arrivals there are.
pub const ARRIVALS: u32 = 262_144;

/// The places that one batch fills: all that the windows have room for.
pub const BATCH: u32 = 4096;

const WINDOW: u32 = 1024;

/// A queue of these sources and arrivals.
#[derive(Drop)]
pub struct Queue {
    places: Places,
}

impl Model for Queue {
    ghost use Rattle.std.specs.Prelude.{◌≡◌};
    ghost use Rattle.place_queue.specs.PlaceList.{PlaceList};

    ghost Value = { PlaceList };

    ghost view = { λ q. q.places };

    ghost invariant = { λ q. (q.places.sources ≡ 4) × (q.places.arrivals ≡ 262144) };
}

impl Queue {
    /// A queue before the first arrival.
    pub fn new(alloc: Global) -> Result<Queue, NoMemory> {
        match Places::new(alloc, SOURCES, WINDOW, ARRIVALS) {
            Ok(places) => Ok(Queue { places }),
            Err(NoMemory) => Err(NoMemory),
        }
    }

    /// A source announces its next arrival, where it has one and there is room.
    pub fn announce(&mut self, source: u32, unit: Option<u32>) {
        let source = source % SOURCES;
        let t = self.places.floor_of(source);
        if t < ARRIVALS {
            let _ = self.places.announce(source, t, unit);
        }
    }

    /// Serves the next place, where there is one, and gives its unit.
    pub fn serve(&mut self) -> u32 {
        match self.places.next() {
            Some(place) => {
                self.places.served();
                place.unit
            }
            None => 0,
        }
    }
}
