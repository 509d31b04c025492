//! What comes and goes is judged, where that is asked for.

use crate::link::News;
use crate::role::Role;
use crate::socket::{Gone, Socket, whom_of};
use crate::sockets::Sockets;
use relay_logins::{FEATURES, place_of};
use relay_status::{Journal, Judged};
use std::alloc::AllocError;
use std::{io, mem};
use tds_judge::Finding;

impl Sockets {
    /// Judges a new socket from now on, if it is an application's or a server's.
    pub(crate) fn begin_judging(&mut self, key: usize) -> io::Result<()> {
        if !self.is_judged {
            return Ok(());
        }
        let alloc = self.alloc;
        if let Some(socket) = self.table.get_mut(key) {
            socket.judged = match &socket.role {
                Role::Handshake(_) => Some(Judged::new(alloc, FEATURES, true)?),
                Role::First(..) | Role::Opening(..) | Role::Reauthentication(..) => {
                    Some(Judged::new(alloc, FEATURES, false)?)
                }
                _ => None,
            };
        }
        Ok(())
    }

    /// Bytes came on a socket: where more may be there, it is to have a turn. Whether others than its relay read
    /// them, too.
    pub fn has_read(&mut self, key: usize) -> Result<bool, AllocError> {
        let (has_more, is_read_along) = match self.table.get(key) {
            Some(socket) => (socket.link.is_readable(), socket.is_read_along()),
            None => return Ok(false),
        };
        if has_more {
            self.report(key, News::Turn)?;
        }
        Ok(is_read_along)
    }

    /// These bytes came on a socket: they are read where it is watched, and judged where that is asked for.
    pub fn judge(&mut self, key: usize, bytes: &[u8], journal: &mut Journal) -> io::Result<()> {
        let Sockets {
            table,
            findings,
            ..
        } = self;
        if let Some(socket) = table.get_mut(key) {
            if let Some(watch) = &mut socket.watch {
                watch.came(bytes);
            }
            if let Some(judged) = &mut socket.judged {
                judged.take(true, journal.moment.micros, bytes, findings)?;
            }
        }
        self.tell_findings(key, journal);
        Ok(())
    }

    /// Tells and counts what was found of a socket.
    pub fn tell_findings(&mut self, key: usize, journal: &mut Journal) {
        if !self.findings.is_empty() {
            self.tell_found(key, journal);
        }
    }

    fn tell_found(&mut self, key: usize, journal: &mut Journal) {
        let findings = mem::replace(&mut self.findings, Vec::new(self.alloc));
        if let Some(socket) = self.table.get_mut(key) {
            socket.tell_all(&findings, journal);
        }
    }

    /// A socket has ended: it is one no more. Answers what is known of it.
    pub fn remove(&mut self, key: usize, journal: &mut Journal) -> io::Result<Option<Gone>> {
        self.end_judging(key, journal)?;
        let Some(socket) = self.table.get(key) else {
            return Ok(None);
        };
        let gone = socket.gone();
        let _ = self.table.try_remove(key).is_some();
        self.dues.remove(place_of(key));
        Ok(Some(gone))
    }

    fn end_judging(&mut self, key: usize, journal: &mut Journal) -> io::Result<()> {
        let Sockets {
            table,
            findings,
            ..
        } = self;
        if let Some(socket) = table.get_mut(key) {
            if let Some(judged) = &mut socket.judged {
                judged.close(journal.moment.micros, findings)?;
            }
        }
        self.tell_findings(key, journal);
        Ok(())
    }
}

impl Socket {
    /// Tells and counts what was found of it.
    fn tell_all(&mut self, findings: &[Finding], journal: &mut Journal) {
        let number = self.number;
        let whom = whom_of(&self.who, self.peer);
        let Some(judged) = &mut self.judged else {
            return;
        };
        for finding in findings.iter() {
            if let Some(blamed) = judged.blamed(finding) {
                journal.counts.found.add(blamed);
                if judged.is_told() {
                    journal.found(blamed, number, finding, &whom);
                }
            }
        }
    }
}
