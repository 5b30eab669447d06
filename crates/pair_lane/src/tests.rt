use crate::{Carried, Full, MAX_CAPACITY, Receiver, Sender, pair};
use std::sync::Wait;
use std::test::Fail;
use std::thread;

/// A number, which fits a lane where it comes after as many items as it says.
#[derive(Drop)]
struct Count(u32);

impl Carried for Count {
    ghost use Rattle.std.specs.Prelude.{◌≡◌, length};

    type Key = ();

    ghost fits = { λ key earlier item. item.0 ≡ length earlier };
}

/// A number that fits any lane.
#[derive(Drop)]
struct Any(u32);

impl Carried for Any {
    ghost use Rattle.std.specs.Prelude.{⊤};

    type Key = ();

    ghost fits = { λ key earlier item. ⊤ };
}

#[test]
fn a_lane_of_one_item(rt: HostRuntime) -> Result<(), Fail> {
    let (mut sender, mut receiver) = pair::<Count, HostRuntime>(&rt, rt.alloc(), 1, ())?;
    assert!(rt; receiver.receive(&rt).is_none());
    assert!(rt; sender.send(&rt, Count(0)).is_ok());
    assert_eq!(rt;
        sender.send(&rt, Count(1)).err().map(|full| full.item.0),
        Some(1)
    );
    assert_eq!(rt; receiver.receive(&rt).map(|item| item.0), Some(0));
    assert!(rt; receiver.receive(&rt).is_none());
    assert!(rt; sender.send(&rt, Count(1)).is_ok());
    assert_eq!(rt; receiver.receive(&rt).map(|item| item.0), Some(1));
    Ok(())
}

/// How many of `count` items are sent before one comes back.
fn room_of<R: Wait>(rt: &R, sender: &mut Sender<Any>, count: u32) -> u32 {
    for n in 0..count {
        if let Err(Full { item }) = sender.send(rt, Any(n)) {
            return item.0;
        }
    }
    count
}

#[test]
fn a_lane_holds_as_many_items_as_it_is_made_for(rt: HostRuntime) -> Result<(), Fail> {
    for capacity in [1, 5, MAX_CAPACITY] {
        let (mut sender, mut receiver) = pair::<Any, HostRuntime>(&rt, rt.alloc(), capacity, ())?;
        assert_eq!(rt; room_of(&rt, &mut sender, 5000), capacity);
        assert_eq!(rt; receiver.receive(&rt).map(|item| item.0), Some(0));
        assert_eq!(rt; room_of(&rt, &mut sender, 5000), 1);
    }
    Ok(())
}

/// Sends the numbers below `count`, each as soon as there is room.
fn send_all<R: Wait>(rt: &R, mut sender: Sender<Any>, count: u32) {
    for n in 0..count {
        for _ in rt.forever() {
            if sender.send(rt, Any(n)).is_ok() {
                break;
            }
            thread::yield_now();
        }
    }
}

/// How many items come in the order of their numbers, from 0 on, of the first `count` that come.
fn ordered_of<R: Wait>(rt: &R, mut receiver: Receiver<Any>, count: u32) -> u32 {
    let mut ordered = 0;
    for n in 0..count {
        for _ in rt.forever() {
            if let Some(item) = receiver.receive(rt) {
                if item.0 == n && ordered == n {
                    ordered = n + 1;
                }
                break;
            }
            thread::yield_now();
        }
    }
    ordered
}

#[test]
fn items_cross_threads_in_order(rt: HostRuntime) -> Result<(), Fail> {
    let (sender, receiver) = pair::<Any, HostRuntime>(&rt, rt.alloc(), 4, ())?;
    let (_, ordered) = thread::join(
        &rt,
        move || send_all(&rt, sender, 1000),
        move || ordered_of(&rt, receiver, 1000),
    );
    assert_eq!(rt; ordered, 1000);
    Ok(())
}

#[test]
fn a_receiver_crosses_too(rt: HostRuntime) -> Result<(), Fail> {
    let (sender, receiver) = pair::<Any, HostRuntime>(&rt, rt.alloc(), 1, ())?;
    let (ordered, _) = thread::join(
        &rt,
        move || ordered_of(&rt, receiver, 100),
        move || send_all(&rt, sender, 100),
    );
    assert_eq!(rt; ordered, 100);
    Ok(())
}
