//! What crosses to C: the table, and each connection's seat in it.

/// A client, as `struct tds_client` of `tds.h`: what the table looks at, and what it leaves alone.
#[repr(C)]
#[derive(Clone, Copy)]
pub struct TdsClient {
    /// The descriptor of the open transaction, 0 for none.
    pub descriptor: u64,
    pub sent: usize,
    /// The packets of the request that are out.
    pub packets: usize,
    pub size: u16,
    /// 0 idle, 1 sending, 2 reading, 3 cancelling; any other number: broken.
    pub stage: u8,
    /// The type of the request's packets, in sending.
    pub kind: u8,
    pub fault: u8,
    pub token_fault: u8,
    /// The reset that the next request asks for: 1 full, 2 with the transaction kept; else none.
    pub mark: u8,
    pub done: u8,
    pub columns: u8,
}

/// A connection: its client, its number and who holds it: `struct tds_seat`.
#[repr(C)]
#[derive(Clone, Copy)]
pub struct TdsSeat {
    pub client: TdsClient,
    pub number: u64,
    /// The number of the lease or the ticket that holds it.
    pub holder: u64,
    /// How many requests were asked on it, which are their numbers.
    pub asked: u64,
    /// 1 lent, 2 lent to be cleaned, 3 kept, 4 draining; any other number: free.
    pub place: u8,
}

/// A table of connections: `struct tds_service`.
#[repr(C)]
#[derive(Clone, Copy)]
pub struct TdsService {
    /// The number of the newest connection, and of the newest lease or ticket.
    pub last: u64,
    pub given: u64,
    /// How many connections there are: those at the array's front.
    pub count: usize,
    /// The packet size of new ones.
    pub size: u16,
}

/// A lease: `struct tds_lent`.
#[repr(C)]
#[derive(Clone, Copy)]
pub struct TdsLent {
    pub lease: u64,
    pub number: u64,
    /// 1 where somebody had the connection before, 0 where it is to be opened.
    pub had: u8,
}

/// A request that was asked: `struct tds_asked`.
#[repr(C)]
#[derive(Clone, Copy)]
pub struct TdsAsked {
    pub number: u64,
    pub request: u64,
}

/// Whose what came is: `struct tds_whose`.
#[repr(C)]
#[derive(Clone, Copy)]
pub struct TdsWhose {
    /// The lease that holds the connection, 0 where none does.
    pub lease: u64,
    /// Its newest request.
    pub request: u64,
}
