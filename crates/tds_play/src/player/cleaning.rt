//! A connection that is cleaned.
ghost use Rattle.std.specs.Prelude.{[], ◌∷◌, ◌++◌, ◌≡◌, ◌<◌, ◌⊎◌, length, suc, ℕ, None, IfOk, OnOk};
ghost use Rattle.tds_play.specs.Failures.{LiveAreSound};
ghost use Rattle.tds_play.specs.Player.{AreHeld, all_of};
ghost use Rattle.tds_play.specs.Steps.{AreFew, IsNoted, StepsAt};
ghost use Rattle.tds_play.specs.Ties.{AreTied, IsJustTold};
ghost use Rattle.tds_session.specs.Answer.{answer_of};
ghost use Rattle.tds_world.specs.declared.event.Event.TheVariants as events;

use super::Player;
use crate::NoMemory;
use crate::carrier::EventCarrier;
use crate::link::EventDone;
use crate::pool::next_number;
use crate::refusal::Stop;
use tds_session::Engine;
use tds_world::Outcome;

impl<E: Engine + Copy> Player<E> {
    /// The connection at this place, which has this number, is cleaned.
    pub(super) fn clean<C: EventCarrier>(
        &mut self,
        carrier: &mut C,
        place: usize,
        conn: u32,
    ) -> Result<EventDone, Stop>
        requires tied { AreTied (all_of self.old) (C.pipes carrier.old) }
        requires told { IsJustTold C.is_told (C.began carrier.old) (C.pipes carrier.old) }
        requires sound { LiveAreSound (all_of self.old) (C.pipes carrier.old) }
        requires held { AreHeld self.old }
        requires few { AreFew 9999 self.old }
        requires there { place < length self.old.links.items }
        ensures { IfOk result (λ done. StepsAt
            (λ engine. answer_of (E.statements_of engine) (E.step_of engine))
            (events.Clean conn) place
            self.old self.new (C.pipes carrier.old) (C.pipes carrier.new)
            (C.began carrier.old) (C.began carrier.new) done) }
    {
        let lease = self.leases.next();
        let request = next_number(self.asked_on.len());
        let done = self.links[place].clean(self.alloc, carrier, &mut self.pool, lease, request)?;
        self.note_cleaning(place, &done.outcome)?;
        Ok(done)
    }

    /// Notes the lease of a cleaning, which is over, and the connection of its request.
    fn note_cleaning(&mut self, place: usize, outcome: &Outcome) -> Result<(), NoMemory>
        requires few { place < 9999 }
        ensures noted { OnOk result
            ((n : ℕ) → IsNoted (events.Clean n) (suc place) self.old self.new outcome.now) }
        ensures leases { OnOk result ((self.new.leases ≡ self.old.leases)
            ⊎ (self.new.leases ≡ self.old.leases ++ None ∷ [])) }
        ensures rest { OnOk result (self.new ≡ record self.old {
          leases = self.new.leases;
          asked_on = self.new.asked_on;
        }) }
    {
        match outcome {
            Outcome::Refused(_) => Ok(()),
            _ => {
                self.leases.skip()?;
                self.asked_on.push(next_number(place))?;
                Ok(())
            }
        }
    }
}
