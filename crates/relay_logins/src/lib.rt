//! The logins that a relay takes and makes (MS-TDS 2.2.6.4, 2.2.6.5), without I/O: of applications as they
//! come, of connections at the server, and which of them are equal.
#![tactic(auto)]

mod continuation;
mod dial;
mod features;
mod groups;
mod handshake;
mod keys;
mod login7;
mod notice;
mod notices;
mod sending;
mod table;

pub use continuation::{Continuation, Taken};
pub use dial::{Dial, Dialed, FEATURES, Target, Unfit, Way};
pub use features::{KeptFeatures, leave_out_features};
pub use groups::{Group, Groups};
pub use handshake::{Handshake, Passed};
pub use keys::Keys;
pub use login7::{Kind, SharedLogin, Who, kind_of, who_of};
pub use notice::{
    FULL, NO_NOTICES, NOT_OPENED, NOTIFIES, REFUSED, TOO_MANY, UNANSWERED, put_error, put_saved,
};
pub use notices::Notices;
pub use table::{Entry, Table, number_of, place_of};
