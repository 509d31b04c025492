//! Tokens that stand whole in a piece, as most of a packet's do.
ghost use Rattle.std.specs.Prelude.{◌≡◌, ◌≤◌, ◌<◌, [], IfOk, IfErr, Bool, drop, length};
ghost use Rattle.tds_wire.specs.Reading.{next_token};
ghost use Rattle.tds_service.specs.Packets.{awaiting};
ghost use Rattle.tds_service.specs.Parts.{items_told};
ghost use Rattle.tds_service.specs.Line as line;
ghost use Rattle.tds_service.specs.Ties.{Hears, Stands, items_of, line_in, part_of};

use super::Connection;
use tds_client::ClientFault;
use tds_listen::{ListenFault, next_whole};
use tds_wire::Token;

impl Connection {
    /// `hear_next` where the piece begins with a token that stands whole and is no row; else nothing is done,
    /// and the answer is 0.
    #[inline(always)]
    pub(crate) fn hear_whole(
        &mut self,
        piece: &[u8],
        token: &mut Option<Token>,
    ) -> Result<usize, ClientFault>
        requires awaits { (cancelling : Bool)
            × ((line_in self.old).stage ≡ awaiting cancelling) }
        ensures ok { IfOk result (λ count. 0 < count → Hears
            (part_of (next_token self.old.parser piece.now)) (line_in self.old)
            (line_in self.new) line.More (items_told (items_of token.new))) }
        ensures fault { IfErr result (λ fault. Hears
            (part_of (next_token self.old.parser piece.now)) (line_in self.old)
            (line_in self.new) (line.Fault (ListenFault.Client fault)) []) }
        ensures stands { IfOk result (λ count. 0 < count
            → Stands (next_token self.old.parser piece.now) self.new.parser
            (drop count piece.now)) }
        ensures within { IfOk result (λ count. count ≤ length piece.now) }
        ensures same { IfOk result (λ count. count ≡ 0 → self.new ≡ self.old) }
        ensures size { self.new.client.size ≡ self.old.client.size }
    {
        next_whole(&mut self.client, &mut self.parser, piece, token)
    }
}
