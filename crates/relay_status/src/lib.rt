//! What a relay tells of itself: figures, each group and each socket, for a reader, as JSON and for
//! Prometheus; the page that whoever asks wants; the log; and what a judge has found.
#![tactic(auto)]

mod at;
mod counts;
mod date;
mod fields;
mod figures;
mod journal;
mod judged;
mod latency;
mod lines;
mod objects;
mod outbox;
mod page;
mod reasons;
mod whom;

pub use at::{At, Role};
pub use counts::{Counts, Done, NOTHING, raise, sum};
pub use figures::{Figures, put_json_figures, put_metrics, put_text_figures, put_user, put_users};
pub use journal::{Journal, Moment};
pub use judged::{Blamed, Found, Judged};
pub use latency::Latency;
pub use lines::{GroupLine, Names, SocketLine, put_group, put_server, put_socket};
pub use objects::{put_json_group, put_json_socket};
pub use outbox::Outbox;
pub use page::{Door, FAR, NO_HTTP, PAGES, Page, STRANGE, StatusClient, UNMEANT, put_answer};
pub use reasons::Kept;
pub use whom::{NOBODY, Whom};
