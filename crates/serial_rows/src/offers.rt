//! The phantom of an arrival, offered to a pipe to which nothing has happened.
ghost use Rattle.std.specs.Prelude.{◌≡◌, ◌<◌, length, All};

use crate::row::Offer;
use crate::run::{compiled_of, is_wide, packets_of, settings_of};
use crate::trouble::Trouble;
use capture_io::Capture;
use code_forms::StagedCode;
use mp5_words::Settings;
use pipe_messages::Message;
use pipe_worker::{Held, Pipe};
use std::alloc::Global;

/// What comes of an offer: `taken`, or `held` with the arrival and the places that come back.
pub fn outcome_of(alloc: Global, offer: &Offer<'_>) -> Result<String, Trouble> {
    let settings = settings_of(offer.numbers[0], offer.numbers[1], offer.numbers[2])?;
    let compiled = compiled_of(alloc, offer.text)?;
    let capture = packets_of(alloc, offer.packets, compiled.source.field_names())?;
    checked_outcome(alloc, &compiled.code, &capture, &settings, offer)
}

// What comes of an offer of these packets.
fn checked_outcome(
    alloc: Global,
    code: &StagedCode,
    capture: &Capture,
    settings: &Settings,
    offer: &Offer<'_>,
) -> Result<String, Trouble> {
    let t = offer.arrival;
    if offer.to >= settings.pipelines || t >= settings.pipelines || t >= capture.count() {
        return Err(Trouble::Row);
    }
    if is_wide(code.fields(), capture) {
        offer_to(alloc, code, capture, settings, offer.to, t)
    } else {
        Err(Trouble::Row)
    }
}

// Offers a new pipe the phantom of an arrival that is the first of its home, which it comes from.
fn offer_to(
    alloc: Global,
    code: &StagedCode,
    capture: &Capture,
    settings: &Settings,
    to: u32,
    t: u32,
) -> Result<String, Trouble>
    requires wide { All (λ header. length header ≡ code.now.fields) capture.now }
    requires to { to < settings.now.pipelines }
    requires arrival { t < length capture.now }
    requires first { t < settings.now.pipelines }
{
    let mut pipe = Pipe::new(alloc, code, capture, settings, to)?;
    let mut room = vec![in alloc; 0; code.slots() as usize]?;
    let mut units = [0; 16];
    code.places(capture.header(t), &mut room, &mut units);
    let home = t % settings.pipelines;
    let offered = pipe.offer(home, Message::Phantom { t, units });
    text_of(alloc, &offered, t, &units)
}

// What is told of a phantom of this arrival with these places that was offered.
fn text_of(
    alloc: Global,
    offered: &Result<(), Held>,
    t: u32,
    units: &[u32; 16],
) -> Result<String, Trouble> {
    let mut text = String::new(alloc);
    match offered {
        Ok(()) => text.push_str("taken")?,
        Err(held) if is_phantom(&held.message, t, units) => put_held(&mut text, t, units)?,
        Err(_) => text.push_str("held, and another message comes back")?,
    }
    Ok(text)
}

// Whether a message is the phantom of this arrival with these places.
fn is_phantom(message: &Message, t: u32, units: &[u32; 16]) -> bool {
    match message {
        Message::Phantom {
            t: arrival,
            units: places,
        } => *arrival == t && places == units,
        _ => false,
    }
}

// Appends that a phantom is held, its arrival, and its places, each with a comma behind it.
fn put_held(text: &mut String, t: u32, units: &[u32; 16]) -> Result<(), Trouble> {
    write!(text, "held {t} ")?;
    for unit in units {
        write!(text, "{unit},")?;
    }
    Ok(())
}
