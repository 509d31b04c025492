//! Which fields of a login part groups.

use crate::config::Config;
use crate::fault::RelayFault;
use crate::near::nearest_first;
use clap::ArgMatches;
use relay_logins::Keys;
use std::alloc::{AllocError, Global};

/// The fields: of these some may part none.
const FIELDS: [&str; 13] = [
    "application",
    "library",
    "library-version",
    "time-zone",
    "user",
    "password",
    "database",
    "language",
    "locale",
    "server",
    "flags",
    "packet-size",
    "tds-version",
];

/// All of them part groups.
const ALL: Keys = Keys {
    application: true,
    library: true,
    version: true,
    zone: true,
};

/// The keys, where these arguments or this file say them.
pub(crate) fn keys_of(
    alloc: Global,
    matches: &ArgMatches,
    config: &Config,
) -> Result<Keys, RelayFault> {
    let set = match config.text("group")? {
        None => ALL,
        Some(text) => match read(text) {
            Ok(keys) => keys,
            Err(word) => {
                let why = unknown(alloc, word)?;
                return Err(config.fault("group", why.as_str())?);
            }
        },
    };
    let Some(text) = matches.get_str("group") else {
        return Ok(set);
    };
    match read(text) {
        Ok(keys) => Ok(keys),
        Err(word) => Err(RelayFault::Group(unknown(alloc, word)?)),
    }
}

/// Those of this text, with commas between them; or the word that is none, as it stands there.
fn read(text: &str) -> Result<Keys, &str> {
    let mut keys = Keys {
        application: false,
        library: false,
        version: false,
        zone: false,
    };
    for word in text.split(',') {
        let word = word.trim();
        match word {
            "application" => keys.application = true,
            "library" => keys.library = true,
            "library-version" => keys.version = true,
            "time-zone" => keys.zone = true,
            _ => {
                let mut is_field = false;
                for field in FIELDS.iter() {
                    is_field = is_field || *field == word;
                }
                if !is_field {
                    return Err(word);
                }
            }
        }
    }
    Ok(keys)
}

/// What is said of a word that is no field.
fn unknown(alloc: Global, word: &str) -> Result<String, AllocError> {
    let known = nearest_first(alloc, word, &FIELDS)?;
    format!(in alloc; "there is no field {word:?} of a login; those that are: {known}")
}
