//! ALL_HEADERS of a request, in any cutting (MS-TDS 2.2.5.3): its headers, in any order and number.

ghost use Rattle.std.specs.Prelude.{◌≡◌};
ghost use Rattle.tds_judge.specs.Headers as headers;

/// What comes next of it.
#[derive(Clone, Copy)]
pub enum Field {
    /// How many bytes all of it has.
    Total,
    /// How many bytes a header has.
    Length,
    /// Its type.
    Kind,
    /// The descriptor of a transaction.
    Descriptor,
    /// What else stands in a header.
    Rest,
}

/// Why it is wrong.
#[derive(Clone, Copy)]
pub enum HeaderFault {
    /// A length doesn't fit, or there are no headers at all.
    Length,
    /// No header names a transaction.
    NoTransaction,
    TwoTransactions,
    /// A header's type is none of the three.
    Kind,
}

/// How far it was read: the field, how many bytes of it are to come, and what those so far spell; how many
/// bytes of all headers are left from this header on, and how many are this one's; and whether a
/// transaction was named.
#[derive(Clone, Copy)]
pub struct Heading {
    pub field: Field,
    pub left: u32,
    pub value: u64,
    pub total: u32,
    pub length: u32,
    pub named: bool,
}

/// What a byte of it comes to.
#[derive(Clone, Copy)]
pub enum Headed {
    /// More is to come.
    On(Heading),
    /// It names this transaction, and more is to come.
    Names(u64, Heading),
    /// That was all.
    Over,
    Wrong(HeaderFault),
}

impl HeaderFault {
    /// Its number, 1 to 4.
    pub fn number(self) -> u8
        ensures { result ≡ headers.header_fault_number self }
    {
        match self {
            HeaderFault::Length => 1,
            HeaderFault::NoTransaction => 2,
            HeaderFault::TwoTransactions => 3,
            HeaderFault::Kind => 4,
        }
    }
}

impl Heading {
    /// Before its first byte.
    pub fn new() -> Heading
        ensures { result ≡ headers.new_heading }
    {
        Heading {
            field: Field::Total,
            left: 4,
            value: 0,
            total: 0,
            length: 0,
            named: false,
        }
    }

    /// A field of so many bytes comes next.
    fn at(self, field: Field, left: u32) -> Heading
        ensures { result ≡ headers.at_field field left self }
    {
        Heading {
            field,
            left,
            value: 0,
            total: self.total,
            length: self.length,
            named: self.named,
        }
    }

    fn end_total(self, total: u32) -> Headed
        ensures { result ≡ headers.total_over total self }
    {
        if total < 10 {
            return Headed::Wrong(HeaderFault::Length);
        }
        let mut next = self.at(Field::Length, 4);
        next.total = total - 4;
        Headed::On(next)
    }

    fn end_length(self, length: u32) -> Headed
        ensures { result ≡ headers.length_over length self }
    {
        if length < 6 || self.total < length {
            return Headed::Wrong(HeaderFault::Length);
        }
        let mut next = self.at(Field::Kind, 2);
        next.length = length;
        Headed::On(next)
    }

    fn end_header(self) -> Headed
        ensures { result ≡ headers.header_over self }
    {
        if self.length < self.total {
            let mut next = self.at(Field::Length, 4);
            next.total = self.total - self.length;
            Headed::On(next)
        } else if self.named {
            Headed::Over
        } else {
            Headed::Wrong(HeaderFault::NoTransaction)
        }
    }

    /// The type of a header that names a transaction has come.
    fn name(self) -> Headed
        ensures { result ≡ headers.naming self }
    {
        if self.named {
            Headed::Wrong(HeaderFault::TwoTransactions)
        } else if self.length == 18 {
            Headed::On(self.at(Field::Descriptor, 8))
        } else {
            Headed::Wrong(HeaderFault::Length)
        }
    }

    /// The type of another one has come.
    fn pass(self) -> Headed
        ensures { result ≡ headers.passing self }
    {
        if self.length > 6 {
            Headed::On(self.at(Field::Rest, self.length - 6))
        } else {
            self.end_header()
        }
    }

    fn end_kind(self, kind: u64) -> Headed
        ensures { result ≡ headers.kind_over kind self }
    {
        if kind == 2 {
            self.name()
        } else if kind == 1 || kind == 3 {
            self.pass()
        } else {
            Headed::Wrong(HeaderFault::Kind)
        }
    }

    fn end_descriptor(self) -> Headed
        ensures { result ≡ headers.descriptor_over self }
    {
        let mut next = self.at(Field::Rest, 4);
        next.named = true;
        Headed::Names(self.value, next)
    }

    fn end_field(self) -> Headed
        ensures { result ≡ headers.field_over self.field self }
    {
        match self.field {
            Field::Total => self.end_total((self.value / 4_294_967_296) as u32),
            Field::Length => self.end_length((self.value / 4_294_967_296) as u32),
            Field::Kind => self.end_kind(self.value / 281_474_976_710_656),
            Field::Descriptor => self.end_descriptor(),
            Field::Rest => self.end_header(),
        }
    }

    /// A byte of it has come.
    #[tactic(auto, unfolding(crate::specs::Headers::heading_by))]
    pub fn take(self, byte: u8) -> Headed
        ensures { result ≡ headers.heading_by self byte }
    {
        let mut here = self;
        here.value = self.value / 256 + u64::from(byte) * 72_057_594_037_927_936;
        if self.left > 1 {
            here.left = self.left - 1;
            Headed::On(here)
        } else {
            here.end_field()
        }
    }
}
