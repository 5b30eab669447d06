//! The queue of places.
ghost use Rattle.std.specs.Prelude.{◌≡◌, ◌≢◌, ◌+◌, ◌<◌, ◌≤◌, ℕ, List, length, drop, IfOk, IfSome, IfNone, OnOk, OnErr, IsSome, None, slice_index, slice_set, min, All};
ghost use Rattle.std.specs.VecDeque.{deque_len, deque_capacity};
ghost use Rattle.place_queue.specs.PlaceList.{unannounced, announced, next_place, count_of, with_place, IsNext, HasNone, IsLeast, IsInOrder, IsAnnounced, IsPlaceList};

use crate::place::{Place, PlaceFull};
use mp5_words::NoMemory;
use std::alloc::Global;
use std::collections::VecDeque;
use std::marker::Model;

/// The queue of one group at one pipe, seen as a floor for each source and a list of unserved places in order
/// of arrival. Below its floor a source has announced all its own arrivals.
#[derive(Drop)]
pub struct Places {
    sources: u32,
    window: u32,
    arrivals: u32,
    floors: Vec<u32>,
    unserved: VecDeque<Place, Global>,
    // how many unserved places each source has
    waiting: Vec<u32>,
    // the least floor, which changes only where a source that had it rises
    least: u32,
}

impl Model for Places {
    ghost use Rattle.std.specs.VecDeque.{deque_capacity};
    ghost use Rattle.place_queue.specs.PlaceList.{PlaceList};
    ghost use Rattle.place_queue.specs.Keeping.{Keeps};

    ghost Value = { PlaceList };

    ghost view = { λ q. record { sources = q.sources; window = q.window; arrivals = q.arrivals; floors = q.floors.items; unserved = q.unserved.items } };

    ghost invariant = { λ q. Keeps record { sources = q.sources; window = q.window; arrivals = q.arrivals; floors = q.floors.items; unserved = q.unserved.items } q.waiting.items q.least (deque_capacity q.unserved) };
}

impl Places {
    /// A queue before the first announcement: the floor of source `s` is the lesser of `s` and `arrivals`.
    pub fn new(alloc: Global, sources: u32, window: u32, arrivals: u32) -> Result<Places, NoMemory>
        requires some { 1 ≤ sources }
        requires sources { sources ≤ 16 }
        requires some_window { 1 ≤ window }
        requires window { window ≤ 1024 }
        requires arrivals { arrivals ≤ 262144 }
        ensures { IfOk result (λ q. q ≡ unannounced sources window arrivals) }
    {
        let mut floors = Vec::with_capacity(alloc, sources as usize)?;
        for source in 0..sources {
            floors.push_reserved(source.min(arrivals));
        }
        Ok(Places {
            sources,
            window,
            arrivals,
            floors,
            unserved: VecDeque::with_capacity(alloc, (sources * window) as usize)?,
            waiting: vec![in alloc; 0; sources as usize]?,
            least: 0,
        })
    }

    /// Source `source` announces its next own arrival `t`, with the unit that it wants here or without one.
    /// Refused exactly where a unit is given and the source has `window` unserved places here; then nothing
    /// changes.
    pub fn announce(&mut self, source: u32, t: u32, unit: Option<u32>) -> Result<(), PlaceFull>
        requires source { source < self.old.sources }
        requires turn { t ≡ slice_index self.old.floors source }
        requires arrival { t < self.old.arrivals }
        ensures ok { OnOk result (self.new ≡ announced self.old source t unit) }
        ensures room { OnOk result
            (IfSome unit (λ _. count_of self.old.unserved source < self.old.window)) }
        ensures given { OnErr result (IsSome unit) }
        ensures full { OnErr result (count_of self.old.unserved source ≡ self.old.window) }
        ensures kept { OnErr result (self.new ≡ self.old) }
    {
        let Some(unit) = unit else {
            self.raise(source, t);
            return Ok(());
        };
        if self.waiting[source as usize] == self.window {
            return Err(PlaceFull);
        }
        self.raise(source, t);
        self.add(Place { t, unit, source });
        Ok(())
    }

    // Raises the floor of a source past its arrival.
    #[inline]
    fn raise(&mut self, source: u32, t: u32)
        requires source { source < self.old.sources }
        requires turn { t ≡ slice_index self.old.floors source }
        requires arrival { t < self.old.arrivals }
        ensures { self.new ≡ announced self.old source t None }
    {
        self.floors[source as usize] = (t + self.sources).min(self.arrivals);
        if t == self.least {
            self.least = least_of(&self.floors);
        }
    }

    // Adds a place below the floor of its source, which has fewer than `window` others here.
    fn add(&mut self, place: Place)
        requires announced { IsAnnounced self.old.sources self.old.floors place }
        requires new { All (λ p. p.t ≢ place.t) self.old.unserved }
        requires room { count_of self.old.unserved place.source < self.old.window }
        ensures { self.new ≡ record self.old { unserved = with_place place self.old.unserved } }
    {
        self.waiting[place.source as usize] += 1;
        insert(&mut self.unserved, place);
    }

    /// The least unserved place, where every floor is above it.
    pub fn next(&self) -> Option<Place>
        ensures next { result ≡ next_place self.now }
        ensures some { IfSome result (IsNext self.now) }
        ensures none { IfNone result (HasNone self.now.floors self.now.unserved) }
        ensures laws { IsPlaceList self.now }
    {
        let place = self.unserved.front()?;
        if place.t < self.least {
            Some(*place)
        } else {
            None
        }
    }

    /// Takes away the place that `next` gives.
    pub fn served(&mut self)
        requires { IsSome (next_place self.old) }
        ensures { self.new ≡ record self.old { unserved = drop 1 self.old.unserved } }
    {
        if let Some(place) = self.unserved.pop_front() {
            self.waiting[place.source as usize] -= 1;
        }
    }

    /// The least floor.
    pub fn floor(&self) -> u32
        ensures least { IsLeast self.now.floors result }
        ensures laws { IsPlaceList self.now }
    {
        self.least
    }

    /// The floor of one source.
    pub fn floor_of(&self, source: u32) -> u32
        requires { source < self.now.sources }
        ensures floor { result ≡ slice_index self.now.floors source }
        ensures laws { IsPlaceList self.now }
    {
        self.floors[source as usize]
    }

    /// How many unserved places a source has here.
    pub fn waiting(&self, source: u32) -> u32
        requires { source < self.now.sources }
        ensures count { result ≡ count_of self.now.unserved source }
        ensures laws { IsPlaceList self.now }
    {
        self.waiting[source as usize]
    }
}

// Puts a place where it stands in order of arrival. There is room for it.
fn insert(places: &mut VecDeque<Place, Global>, place: Place)
    requires room { deque_len places.old < deque_capacity places.old }
    requires order { IsInOrder places.old.items }
    ensures places { places.new.items ≡ with_place place places.old.items }
    ensures room { deque_capacity places.old ≤ deque_capacity places.new }
{
    let rank = places.partition_point(|p| p.t < place.t);
    match places.insert(rank, place) {
        Ok(()) => {}
        Err(_) => unreachable!(),
    }
}

// The least of the floors.
fn least_of(floors: &[u32]) -> u32
    requires { 0 < length floors.now }
    ensures { IsLeast floors.now result }
{
    let mut least = floors[0];
    for floor in floors {
        least = least.min(*floor);
    }
    least
}

#[cfg(test)]
mod tests {
    use super::*;
    use std::test::Fail;

    #[test]
    fn two_sources_with_a_window_of_one(rt: HostRuntime) -> Result<(), Fail> {
        let mut places = Places::new(rt.alloc(), 2, 1, 10)?;
        assert_eq!(rt; places.announce(0, 0, Some(3)), Ok(()));
        assert_eq!(rt; places.announce(0, 2, Some(1)), Err(PlaceFull));
        let first = Place {
            t: 0,
            unit: 3,
            source: 0,
        };
        assert_eq!(rt; places.next(), Some(first));
        places.served();
        assert_eq!(rt; places.announce(0, 2, Some(1)), Ok(()));
        assert_eq!(rt; places.next(), None, "the floor of source 1 is 1");
        assert_eq!(rt; places.announce(1, 1, None), Ok(()));
        let second = Place {
            t: 2,
            unit: 1,
            source: 0,
        };
        assert_eq!(rt; places.next(), Some(second));
        Ok(())
    }

    #[test]
    fn a_window_is_full_by_one(rt: HostRuntime) -> Result<(), Fail> {
        let mut places = Places::new(rt.alloc(), 1, 2, 9)?;
        assert_eq!(rt; places.announce(0, 0, Some(4)), Ok(()));
        assert_eq!(rt; places.announce(0, 1, None), Ok(()));
        assert_eq!(rt; places.waiting(0), 1);
        assert_eq!(rt; places.announce(0, 2, Some(4)), Ok(()));
        assert_eq!(rt; places.waiting(0), 2);
        assert_eq!(rt; places.announce(0, 3, Some(4)), Err(PlaceFull));
        assert_eq!(rt; places.floor_of(0), 3);
        assert_eq!(rt; places.announce(0, 3, None), Ok(()));
        assert_eq!(rt; places.floor(), 4);
        Ok(())
    }

    #[test]
    fn a_later_place_waits_for_an_earlier_one(rt: HostRuntime) -> Result<(), Fail> {
        let mut places = Places::new(rt.alloc(), 2, 4, 3)?;
        assert_eq!(rt; places.announce(1, 1, Some(7)), Ok(()));
        assert_eq!(rt; places.floor(), 0);
        assert_eq!(rt; places.next(), None);
        assert_eq!(rt; places.announce(0, 0, Some(5)), Ok(()));
        assert_eq!(rt; places.next().map(|p| p.unit), Some(5));
        assert_eq!(rt; places.announce(0, 2, Some(6)), Ok(()));
        assert_eq!(rt; places.floor(), 3, "the floors tie");
        places.served();
        assert_eq!(rt; places.next().map(|p| p.unit), Some(7));
        Ok(())
    }

    #[test]
    fn sources_without_arrivals(rt: HostRuntime) -> Result<(), Fail> {
        let places = Places::new(rt.alloc(), 16, 1024, 3)?;
        assert_eq!(rt; places.floor_of(2), 2);
        assert_eq!(rt; places.floor_of(3), 3);
        assert_eq!(rt; places.floor_of(15), 3);
        let none = Places::new(rt.alloc(), 4, 1, 0)?;
        assert_eq!(rt; none.floor(), 0);
        assert_eq!(rt; none.floor_of(3), 0);
        assert_eq!(rt; none.next(), None);
        assert_eq!(rt; none.waiting(0), 0);
        Ok(())
    }

    #[test]
    fn the_most_sources_and_arrivals(rt: HostRuntime) -> Result<(), Fail> {
        let mut places = Places::new(rt.alloc(), 16, 1024, 262_144)?;
        assert_eq!(rt; places.announce(15, 15, None), Ok(()));
        assert_eq!(rt; places.floor_of(15), 31);
        assert_eq!(rt; places.floor(), 0);
        let mut last = Places::new(rt.alloc(), 1, 1, 1)?;
        assert_eq!(rt; last.announce(0, 0, Some(65_535)), Ok(()));
        assert_eq!(rt; last.floor(), 1);
        assert_eq!(rt; last.next().map(|p| p.unit), Some(65_535));
        Ok(())
    }
}
