//! What a group's relay says is to be done, as far as it opens no connection; and groups that end.

use crate::state::{RelayState, relay_of};
use relay_sockets::{News, RoleKind};
use relay_status::sum;
use std::alloc::AllocError;
use std::io;
use tds_relay::Place;

impl RelayState {
    /// Sends what waits for a socket. One that fails has its end reported.
    pub fn write(&mut self, key: usize) -> Result<(), AllocError> {
        self.note_answer(key);
        if self.send(key)? {
            Ok(())
        } else {
            self.sockets.report(key, News::End)
        }
    }

    /// Where the first connection of a group was cleaned, or is gone, its applications are read.
    pub fn end_beginning(&mut self, group: usize) -> io::Result<()> {
        match self.groups.get_mut(group) {
            Some(found) if found.first.is_some() && !found.is_beginning() => found.first = None,
            _ => return Ok(()),
        }
        self.read_all_of(group)
    }

    /// The applications of a group are read on, those first of which something has come first.
    pub fn read_all_of(&mut self, group: usize) -> io::Result<()> {
        let mut kept = self.orders_of(group)?;
        kept.sort_unstable();
        self.read_each(&kept)
    }

    /// The applications of a group, each behind the place of what has come of it.
    fn orders_of(&self, group: usize) -> Result<Vec<(u64, usize)>, AllocError> {
        let mut kept = Vec::new(self.alloc);
        for (_, entry) in self.sockets.iter() {
            if let RoleKind::Application(of, _) = entry.value.role_kind() {
                if of == group {
                    kept.push((entry.value.order, entry.key))?;
                }
            }
        }
        Ok(kept)
    }

    fn read_each(&mut self, kept: &[(u64, usize)]) -> io::Result<()> {
        for (_, socket) in kept.iter() {
            self.sockets.read_on(*socket)?;
        }
        Ok(())
    }

    /// How long an application's request took, where it has its answer now.
    fn note_answer(&mut self, key: usize) {
        let RelayState {
            sockets,
            groups,
            journal,
            ..
        } = self;
        let Some(socket) = sockets.get_mut(key) else {
            return;
        };
        let Some(application) = socket.application() else {
            return;
        };
        let Some(asked) = application.asked else {
            return;
        };
        let Some(relay) = relay_of(groups, application.group) else {
            return;
        };
        if matches!(
            relay.place_of(application.key),
            Some(Place::Quiet | Place::Holding(_))
        ) {
            application.asked = None;
            let took = journal.moment.micros.saturating_sub(asked);
            journal.requests.add(took);
        }
    }

    /// Nobody is left of a group: it is forgotten, with its login.
    pub fn forget_deserted(&mut self, group: usize) {
        let is_deserted = match self.groups.get(group) {
            Some(group) => group.is_deserted(),
            None => false,
        };
        if is_deserted {
            self.forget(group);
        }
    }

    /// A group is no longer one. What it has done is counted.
    pub fn forget(&mut self, group: usize) {
        if let Some(gone) = self.groups.try_remove(group) {
            let counts = &mut self.journal.counts;
            counts.gone = sum(counts.gone, gone.done());
        }
    }

    /// Closes a socket, behind what the system still takes of what waits for it. What the relay says
    /// then is done by whoever calls.
    pub fn close(&mut self, key: usize) -> io::Result<()> {
        self.say_fault(key);
        match self.take_out(key)? {
            Some(role_kind) => {
                let _ = self.part(role_kind, key)?;
                Ok(())
            }
            None => Ok(()),
        }
    }
}
