ghost use Rattle.std.specs.Prelude.{◌≡◌};
ghost use Rattle.tds_text.specs.Events.{word_of};

/// The word that an event's array begins with.
#[derive(Clone, Copy, Debug, PartialEq, Eq)]
pub(crate) enum Word {
    Lease,
    Resume,
    GiveBack,
    Keep,
    Abandon,
    Clean,
    Batch,
    Begin,
    Commit,
    Rollback,
    Send,
    Cancel,
    Work,
    ToServer,
    ToClient,
    Cut,
    RestartServer,
    RestartClient,
}

impl Word {
    /// The word that a text is.
    pub(crate) fn read(text: &str) -> Option<Word>
        ensures { result ≡ word_of text.now }
    {
        match text {
            "lease" => Some(Word::Lease),
            "resume" => Some(Word::Resume),
            "give_back" => Some(Word::GiveBack),
            "keep" => Some(Word::Keep),
            "abandon" => Some(Word::Abandon),
            "clean" => Some(Word::Clean),
            "batch" => Some(Word::Batch),
            "begin" => Some(Word::Begin),
            "commit" => Some(Word::Commit),
            "rollback" => Some(Word::Rollback),
            "send" => Some(Word::Send),
            "cancel" => Some(Word::Cancel),
            "work" => Some(Word::Work),
            "to_server" => Some(Word::ToServer),
            "to_client" => Some(Word::ToClient),
            "cut" => Some(Word::Cut),
            "restart_server" => Some(Word::RestartServer),
            "restart_client" => Some(Word::RestartClient),
            _ => None,
        }
    }
}
