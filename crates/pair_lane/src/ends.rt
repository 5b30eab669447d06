ghost use Rattle.std.specs.Prelude.{◌≡◌, ◌≤◌, true, false, [], ◌∷◌, IfOk};
ghost use Rattle.crossbeam_queue.specs.Passes.{view, IsPassOf, ruled_capacity};
ghost use Rattle.pair_lane.specs.Lane.{strand};
ghost use Rattle.pair_lane.specs.Rule.{both_ends, fresh};

use crate::carried::Carried;
use crate::receiver::Receiver;
use crate::rule::{Known, Line, Opens, Parts, Slip, Unlocks};
use crate::sender::Sender;
use crossbeam_queue::Pass;
use mp5_words::NoMemory;
use std::alloc::Global;
use std::snapshot::Snapshot;
use std::sync::{Arc, Wait};

/// The most items that a lane holds.
pub const MAX_CAPACITY: u32 = 4096;

/// The two ends of a new lane of this key, which holds at most `capacity` items, from 1 to 4,096.
pub fn pair<T: Carried, R: Wait>(
    rt: &R,
    alloc: Global,
    capacity: u32,
    key: T::Key,
) -> Result<(Sender<T>, Receiver<T>), NoMemory>
    requires some { 1 ≤ capacity }
    requires most { capacity ≤ MAX_CAPACITY }
    ensures sender { IfOk result (λ ends. ends.0 ≡ strand key capacity []) }
    ensures receiver { IfOk result (λ ends. ends.1 ≡ strand key capacity []) }
{
    let (line, mut pass) = Line::<T>::ruled(alloc, capacity as usize)?;
    lay_key(rt, &line, &mut pass, &key);
    take_key(rt, &line, &mut pass, &key);
    let other = line.another::<Parts>(&mut pass);
    let Ok(line) = Arc::new(alloc, line) else {
        return Err(NoMemory);
    };
    let theirs = Arc::try_clone(&line)?;
    Ok((
        Sender::new(line, pass, Snapshot::of(&key)),
        Receiver::new(theirs, other, Snapshot::of(&key)),
    ))
}

// Lays the key into a new queue, so that its one pass knows it.
fn lay_key<T: Carried, R: Wait>(
    rt: &R,
    line: &Line<T>,
    pass: &mut Pass<Slip<T, T::Key>, Known<T, T::Key>>,
    key: &T::Key,
)
    requires pass { IsPassOf line.now pass.old }
    requires unused { view pass.old ≡ fresh }
    requires room { 1 ≤ ruled_capacity line.now }
    ensures pass { IsPassOf line.now pass.new }
    ensures known { view pass.new ≡ both_ends (key.now ∷ []) false }
{
    match line.push_as::<Opens, R>(rt, pass, Slip::Opening(Snapshot::of(key))) {
        Ok(()) => {}
        Err(_) => unreachable!(),
    }
}

// Takes the key out again, before the first item.
fn take_key<T: Carried, R: Wait>(
    rt: &R,
    line: &Line<T>,
    pass: &mut Pass<Slip<T, T::Key>, Known<T, T::Key>>,
    key: &T::Key,
)
    requires pass { IsPassOf line.now pass.old }
    requires laid { view pass.old ≡ both_ends (key.now ∷ []) false }
    ensures pass { IsPassOf line.now pass.new }
    ensures known { view pass.new ≡ both_ends (key.now ∷ []) true }
{
    let _ = key;
    match line.pop_as::<Unlocks, R>(rt, pass) {
        Some(_) => {}
        None => unreachable!(),
    }
}
