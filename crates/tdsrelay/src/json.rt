//! What is there as JSON, in pieces: behind each one others have their turns, so that nobody waits for who asks.

use crate::program::Program;
use relay_status::{put_answer, put_json_figures, put_json_socket};
use std::alloc::{AllocError, Global};
use std::io::{self, Write};
use std::net::Net;

/// The sockets that are told in a round. Of groups it is one.
const PIECE: usize = 64;

/// Who is told, and what of it there is so far.
#[derive(Drop)]
pub struct Telling {
    /// The socket of who asks.
    by: usize,
    /// The sockets and the groups that were there as it began, the next ones last.
    sockets: Vec<usize>,
    groups: Vec<usize>,
    /// Whether all sockets are told, and whether one of what is being told is.
    has_sockets: bool,
    has_one: bool,
    body: Vec<u8>,
}

impl Telling {
    fn new(alloc: Global, by: usize) -> Telling {
        Telling {
            by,
            sockets: Vec::new(alloc),
            groups: Vec::new(alloc),
            has_sockets: false,
            has_one: false,
            body: Vec::new(alloc),
        }
    }

    /// What stands between two of what is told.
    fn begin_one(&mut self) -> Result<(), AllocError> {
        if self.has_one {
            self.body.push(b',')?;
        }
        self.has_one = true;
        Ok(())
    }
}

impl Program {
    /// He who has this key asks for it, and is told behind those who have asked before.
    pub fn ask_json(&mut self, by: usize) -> io::Result<()> {
        let is_told = match &self.telling {
            Some(telling) => telling.by == by,
            None => false,
        };
        if !is_told && !self.asking.contains(&by) {
            self.asking.push(by)?;
        }
        Ok(())
    }

    /// Whether somebody is told, or is to be.
    pub fn is_telling(&self) -> bool {
        self.telling.is_some() || !self.asking.is_empty()
    }

    /// Tells one piece more, and answers who was told all.
    pub fn tell_on<R: Net>(&mut self, rt: &R) -> io::Result<()> {
        let mut telling = match self.telling.take() {
            Some(telling) => telling,
            None => match self.begin_telling()? {
                Some(telling) => telling,
                None => return Ok(()),
            },
        };
        if self.tell_piece(&mut telling)? {
            return self.answer_json(rt, telling);
        }
        self.telling = Some(telling);
        Ok(())
    }

    /// Begins with the next one who asks: what comes before sockets and groups.
    fn begin_telling(&mut self) -> io::Result<Option<Telling>> {
        if self.asking.is_empty() {
            return Ok(None);
        }
        let by = self.asking.remove(0);
        let mut telling = Telling::new(self.event_loop.alloc, by);
        self.see_all()?;
        put_json_figures(&mut telling.body, &self.figures())?;
        write!(telling.body, ",\"request_seconds\":")?;
        self.event_loop
            .state
            .journal
            .requests
            .put_json(&mut telling.body)?;
        write!(telling.body, ",\"login_seconds\":")?;
        self.event_loop
            .state
            .journal
            .logins
            .put_json(&mut telling.body)?;
        write!(telling.body, ",\"sockets\":[")?;
        self.note_all(&mut telling)?;
        Ok(Some(telling))
    }

    /// Notes the sockets and the groups that are there.
    fn note_all(&self, telling: &mut Telling) -> io::Result<()> {
        telling.sockets = self.event_loop.state.sockets.keys()?;
        telling.sockets.reverse();
        for (_, entry) in self.event_loop.state.groups.iter() {
            telling.groups.push(entry.key)?;
        }
        telling.groups.reverse();
        Ok(())
    }

    /// Tells of some sockets, or of a group. Whether that was all.
    fn tell_piece(&self, telling: &mut Telling) -> io::Result<bool> {
        if !telling.has_sockets {
            self.tell_sockets(telling)?;
            return Ok(false);
        }
        let Some(key) = telling.groups.pop() else {
            writeln!(telling.body, "]}}")?;
            return Ok(true);
        };
        if let Some(group) = self.event_loop.state.groups.get(key) {
            telling.begin_one()?;
            self.put_json_group(&mut telling.body, key, group)?;
        }
        Ok(false)
    }

    fn tell_sockets(&self, telling: &mut Telling) -> io::Result<()> {
        for _ in 0..PIECE {
            let Some(key) = telling.sockets.pop() else {
                telling.has_sockets = true;
                telling.has_one = false;
                write!(telling.body, "],\"groups\":[")?;
                return Ok(());
            };
            if let Some(socket) = self.event_loop.state.sockets.get(key) {
                telling.begin_one()?;
                put_json_socket(&mut telling.body, &self.line_of(socket))?;
            }
        }
        Ok(())
    }

    fn answer_json<R: Net>(&mut self, rt: &R, telling: Telling) -> io::Result<()> {
        let by = telling.by;
        if let Some(socket) = self.event_loop.state.sockets.get_mut(by) {
            put_answer(&mut socket.out, "200 OK", "application/json", &telling.body)?;
        }
        self.event_loop.close_when_sent(rt, by)
    }
}
