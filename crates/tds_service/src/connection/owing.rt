//! What a connection owes whoever has it next: a reset, the end of a transaction.
ghost use Rattle.std.specs.Prelude.{◌≡◌, is_some};
ghost use Rattle.tds_service.specs.Anew.{begins_anew};
ghost use Rattle.tds_service.specs.Service.{is_clean, is_open};
ghost use Rattle.tds_service.specs.Ties.{line_in};

use super::Connection;
use tds_packet::Reset;

impl Connection {
    /// Whether a transaction is open, and no full reset is about to end it.
    pub(crate) fn is_open(&self) -> bool
        ensures { result
            ≡ is_open (line_in self.now).heard.mark (line_in self.now).heard.descriptor }
    {
        match self.client.reset_mark() {
            Some(Reset::Full) => false,
            Some(Reset::KeepTransaction) => self.client.descriptor() > 0,
            None => self.client.descriptor() > 0,
        }
    }

    /// Whether the news of a reset is owed.
    pub(crate) fn owes_reset(&self) -> bool
        ensures { result ≡ is_some (line_in self.now).heard.mark }
    {
        self.client.reset_mark().is_some()
    }

    /// Whether its next request begins a session: it asks for a full reset, or is the first one here.
    pub(crate) fn begins_anew(&self) -> bool
        ensures { result ≡ begins_anew (line_in self.now) }
    {
        match self.client.reset_mark() {
            Some(Reset::Full) => true,
            Some(Reset::KeepTransaction) => self.asked == 0,
            None => self.asked == 0,
        }
    }

    /// Whether no reset is owed, and no transaction is open.
    pub(crate) fn is_clean(&self) -> bool
        ensures { result
            ≡ is_clean (line_in self.now).heard.mark (line_in self.now).heard.descriptor }
    {
        match self.client.reset_mark() {
            Some(_) => false,
            None => self.client.descriptor() == 0,
        }
    }
}
