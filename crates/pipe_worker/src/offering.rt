//! Messages that are offered.
ghost use Rattle.std.specs.Prelude.{◌≡◌, ◌<◌, ◌≤◌, ◌↔◌, length, IsTrue, IsFalse, OnOk, OnErr, IfErr};
ghost use Rattle.run_laws.specs.Run.{arrivals, round_of};
ghost use Rattle.group_station.specs.Steps.{CanTake, after_taking};
ghost use Rattle.packet_steps.specs.Packet.{IsOnWay};
ghost use Rattle.pipe_messages.specs.Messages.{IsMessage, IsPhantom, IsHandedOver};
ghost use Rattle.pipe_messages.specs.declared.message.Message.TheVariants.{Phantom};
ghost use Rattle.pipe_stations.specs.Row.{with_station};
ghost use Rattle.pipe_stations.specs.RowSteps.{IsTurn, IsAnnounced};
ghost use Rattle.pipe_worker.specs.Pipe.{station};
ghost use Rattle.pipe_worker.specs.Offers.{IsNextOf, IsHeld, IsCrowded, IsOnlyRow, IsPacketIn, IsAccepted};

use crate::pipe::Pipe;
use crate::standing::stand;
use code_forms::Unit;
use pipe_messages::Message;
use pipe_parts::Env;

/// A message for which a pipe had no room, or came before the plan of its arrival's round.
#[derive(Drop)]
pub struct Held {
    pub message: Message,
}

impl Pipe<'_> {
    /// Offers a message from a pipe. It comes back exactly where there is no room for it: for a
    /// phantom, where at a group at which it announces a unit here its source has `window` unserved
    /// places; for a packet, where `window` of its home are here, its own is here, or its arrival is an
    /// own one that isn't out; for a unit, where it is in hand, or isn't for the first known round from
    /// the group's present one on in which this pipe owns it; and where the plan of the round of a
    /// phantom's or a packet's arrival isn't known. Then nothing changes. Takes no memory.
    pub fn offer(&mut self, from: u32, message: Message) -> Result<(), Held>
        requires from { from < self.old.run.settings.pipelines }
        requires law { IsMessage self.old.run from self.old.pipe message }
        requires turn { IsNextOf self.old from message }
        ensures ok { OnOk result (IsAccepted self.old self.new from message) }
        ensures room { OnOk result (IsHeld self.old from message → ⊥) }
        ensures back { IfErr result (λ held. held.message ≡ message) }
        ensures kept { OnErr result (self.new ≡ self.old) }
        ensures held { OnErr result (IsHeld self.old from message) }
    {
        match message {
            Message::Phantom { t, units } => {
                if self.hear(from, t, &units) {
                    Ok(())
                } else {
                    Err(Held {
                        message: Message::Phantom { t, units },
                    })
                }
            }
            Message::Packet {
                t,
                g,
                env,
                by,
                touched,
            } => {
                if self.is_planned(t) && !self.is_crowded(t) {
                    self.take_in(t, g, env, by, touched);
                    Ok(())
                } else {
                    Err(Held {
                        message: Message::Packet {
                            t,
                            g,
                            env,
                            by,
                            touched,
                        },
                    })
                }
            }
            Message::Cell { g, u, from, unit } => match self.take_unit(from, unit) {
                Ok(()) => Ok(()),
                Err(unit) => Err(Held {
                    message: Message::Cell { g, u, from, unit },
                }),
            },
            Message::Home {
                t,
                env,
                by,
                touched,
            } => {
                if self.is_crowded(t) {
                    Err(Held {
                        message: Message::Home {
                            t,
                            env,
                            by,
                            touched,
                        },
                    })
                } else {
                    let groups = self.run.code.groups();
                    self.take_in(t, groups, env, by, touched);
                    Ok(())
                }
            }
        }
    }

    // Announces an arrival at all groups, where there is room and the plan of its round is known.
    fn hear(&mut self, from: u32, t: u32, units: &[u32; 16]) -> bool
        requires from { from < self.old.run.settings.pipelines }
        requires law { IsPhantom self.old.run from t units.now }
        requires turn { IsTurn self.old.row from t }
        ensures announced { IsTrue result → IsAnnounced self.old.row self.new.row from t }
        ensures only { IsTrue result → IsOnlyRow self.old self.new }
        ensures room { IsTrue result → IsHeld self.old from (Phantom t units.now) → ⊥ }
        ensures held { IsFalse result → IsHeld self.old from (Phantom t units.now) }
        ensures kept { IsFalse result → self.new ≡ self.old }
    {
        self.is_planned(t) && self.row.announce(from, t, units, &self.owners).is_ok()
    }

    // Whether the plan of an arrival's round is known.
    fn is_planned(&self, t: u32) -> bool
        ensures { IsTrue result ↔ (round_of self.now.run t ≤ length self.now.owners.plans) }
    {
        t / self.run.settings.round <= self.owners.applied()
    }

    // Whether there is no room for an arrival's packet.
    fn is_crowded(&self, t: u32) -> bool
        requires { t < arrivals self.now.run }
        ensures { IsTrue result ↔ IsCrowded self.now t }
    {
        let home = t % self.run.settings.pipelines;
        if self.packets.of_home(home) == self.run.settings.window {
            return true;
        }
        if self.packets.has(t) {
            return true;
        }
        home == self.pipe && !self.door.is_away(t)
    }

    // Takes a packet in, for which there is room.
    fn take_in(&mut self, t: u32, g: u32, env: Env, by: [u8; 16], touched: [u16; 16])
        requires way { IsOnWay self.old.run t g env by touched }
        requires known { round_of self.old.run t ≤ length self.old.owners.plans }
        requires room { IsCrowded self.old t → ⊥ }
        ensures { IsPacketIn self.old self.new t g env by touched }
    {
        prove!(!self.packets.has(t));
        let packet = self.run.arrive(t, g, env, by, touched, &mut self.slots);
        stand(
            &self.run,
            self.pipe,
            &self.owners,
            &mut self.packets,
            packet,
        );
    }

    // Takes a unit into hand for a round, where it can be taken.
    fn take_unit(&mut self, from: u32, unit: Unit) -> Result<(), Unit>
        requires { IsHandedOver self.old.run self.old.pipe unit.group unit.number from unit }
        ensures ok { OnOk result (self.new ≡ record self.old {
          row =
              with_station self.old.row unit.group (after_taking (station self.old unit.group) unit);
        }) }
        ensures can { OnOk result
            (CanTake (station self.old unit.group) self.old.owners from unit.number) }
        ensures back { IfErr result (λ back. back ≡ unit) }
        ensures kept { OnErr result (self.new ≡ self.old) }
        ensures cannot { OnErr result
            (CanTake (station self.old unit.group) self.old.owners from unit.number → ⊥) }
    {
        prove!(unit.group < self.row.len());
        self.row.take(from, unit, &self.owners)
    }
}
