//! The settings: each argument and what it is.

/// The arguments that take a value: the name, and what it is.
pub const SETTINGS: [(&str, &str); 27] = [
    (
        "most",
        "CONNECTIONS at most for equal logins, 1 to 1024 [16]",
    ),
    (
        "alone",
        "CONNECTIONS at most of logins that can't be shared, 0 to 4096 [256]",
    ),
    (
        "total",
        "CONNECTIONS at most of all logins together, 1 to 10000 [10000]",
    ),
    (
        "kinds",
        "KINDS of logins at most that share connections, 1 to 4096 [256]",
    ),
    (
        "least",
        "CONNECTIONS of equal logins that are kept however idle they are, 0 to 1024 [0]",
    ),
    (
        "group",
        "FIELDS of logins that part groups, with commas; where application, library, library-version or time-zone is \
         left out the server is told the relay's, and all others part in any case [all]",
    ),
    (
        "share",
        "session, or transaction: who asks nothing and loses nothing is parted for who waits [session]",
    ),
    (
        "login",
        "SECONDS that a login may take, on either side [10]; of these arguments 0 is no limit",
    ),
    (
        "wait",
        "SECONDS that an application waits for a connection at most [120]",
    ),
    (
        "cancel",
        "SECONDS until a cancel is acknowledged, or a cleaning done, at most [30]",
    ),
    (
        "idle",
        "SECONDS that a connection which nobody holds is kept [600]",
    ),
    (
        "life",
        "SECONDS from its login after which a connection is closed once nobody holds it [3600]",
    ),
    (
        "hold",
        "SECONDS that an application may hold a connection and ask nothing [0]",
    ),
    (
        "transaction",
        "SECONDS that an application may leave a transaction open and ask nothing [0]",
    ),
    ("request", "SECONDS that a request may run [0]"),
    (
        "drain",
        "SECONDS at most from the end of standard input to the relay's own [30]",
    ),
    (
        "check",
        "SECONDS after which connections that nobody holds are reset once more, to find dead ones [30]",
    ),
    (
        "away",
        "SECONDS for which other servers are preferred to one that has failed [10]",
    ),
    (
        "judge-again",
        "SECONDS after which a server authenticates each kind of login once more, 0 for never [600]",
    ),
    (
        "half-closed",
        "SECONDS that who has shut its sending side may wait for its answer, 0 for none [0]",
    ),
    (
        "spin",
        "MICROSECONDS behind a report for which the system is asked again at once, 0 to 1000 [0]",
    ),
    (
        "keepalive",
        "SECONDS of silence behind which the system asks whether the other end is there, 0 for never [60]",
    ),
    (
        "unacknowledged",
        "SECONDS for which an end may acknowledge nothing of what it is sent; 0 is the system's own [0]",
    ),
    (
        "proxy",
        "ADDRESSES, up to four with commas, from which each connection begins with a PROXY header, version 2",
    ),
    (
        "names",
        "PLACE, as unix:PATH, where `tdstls names` answers which addresses a name has",
    ),
    (
        "config",
        "FILE in TOML that has these settings; an argument stands over it",
    ),
    (
        "stats",
        "PLACE where it tells what it does, over HTTP: an address, or unix:PATH",
    ),
];

/// The arguments that take none.
pub const FLAGS: [(&str, &str); 4] = [
    (
        "until-input-ends",
        "ends in order once its standard input, a pipe, has ended",
    ),
    (
        "judge",
        "a line for each breach and each risk of applications and servers, on standard error",
    ),
    (
        "log",
        "a line for each application and each connection, on standard error",
    ),
    ("log-json", "the same, each line as an object of JSON"),
];
