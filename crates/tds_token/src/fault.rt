ghost use Rattle.std.specs.Prelude.{◌≡◌};
ghost use Rattle.tds_token.specs.Faults.{fault_number};

/// What is wrong with a packet's data: the first field, in the order of the layout, that is wrong
/// or cut.
#[derive(Debug, Drop)]
pub enum TokenFault {
    /// 1: the token byte is none that is read here.
    UnknownToken,
    /// 2: the data end before a field's last byte.
    Cut,
    /// 3: a field passes the end of the Length that it stands in, or bytes are left over there.
    WrongLength,
    /// 4: an ENVCHANGE's type, or a value that its type does not give.
    WrongEnvChange,
    /// 5: a DONE's status.
    WrongStatus,
    /// 6: a ROW where no columns are known.
    NoColumns,
    /// 7: the count of columns, or a column's type or the count of its name.
    WrongColumn,
}

impl TokenFault {
    /// The fault's number, 1 to 7.
    pub fn number(&self) -> u8
        ensures { result ≡ fault_number self.now }
    {
        match self {
            TokenFault::UnknownToken => 1,
            TokenFault::Cut => 2,
            TokenFault::WrongLength => 3,
            TokenFault::WrongEnvChange => 4,
            TokenFault::WrongStatus => 5,
            TokenFault::NoColumns => 6,
            TokenFault::WrongColumn => 7,
        }
    }
}
