//! A worker.

use pair_lane::{Receiver, Sender};
use pipe_messages::Message;
use pipe_worker::Pipe;
use std::marker::Model;

/// A pipe with its ends of the lanes, by number: those to each pipe, and those from each.
#[derive(Drop)]
pub struct Worker<'a> {
    pub pipe: Pipe<'a>,
    pub to: Vec<Sender<Message>>,
    pub from: Vec<Receiver<Message>>,
}

impl<'a> Model for Worker<'a> {
    ghost use Rattle.switch_worker.specs.Worker.{Worker};

    ghost Value = { Worker };

    ghost view = { λ w. record { pipe = w.pipe; to = w.to.items; from = w.from.items } };
}
