ghost use Rattle.std.specs.Prelude.{◌≡◌, ◌<◌, ◌++◌, OnOk, string_bytes};
ghost use Rattle.tds_text.specs.Texts.{comma_behind};
ghost use Rattle.tds_text.specs.Sessions.{setting_text, or_dash, settings_from, session_text};

use crate::rendering::text::put_comma;
use std::alloc::AllocError;
use std::fmt::Write;
use tds_session::Session;

/// Appends a session: its descriptor, and its settings by rising key.
#[tactic(auto, unfolding(crate::specs::Sessions::session_text))]
pub(crate) fn put_session(text: &mut String, session: &Session) -> Result<(), AllocError>
    ensures { OnOk result
        (string_bytes text.new ≡ string_bytes text.old ++ session_text session.now) }
{
    let descriptor = session.descriptor();
    write!(text, "{descriptor} ")?;
    put_settings(text, &session.settings())
}

fn put_settings(text: &mut String, settings: &[Option<i32>; 26]) -> Result<(), AllocError>
    ensures { OnOk result
        (string_bytes text.new ≡ string_bytes text.old ++ or_dash (settings_from 97 settings.now)) }
{
    let mut count = 0;
    for (index, setting) in settings.iter().enumerate() {
        if let Some(value) = setting {
            put_comma(text, count)?;
            put_setting(text, b'a' + index as u8, value)?;
            count += 1;
        }
    }
    match count {
        0 => text.push_str("-"),
        _ => Ok(()),
    }
}

fn put_setting(text: &mut String, key: u8, value: &i32) -> Result<(), AllocError>
    requires { key < 128 }
    ensures { OnOk result
        (string_bytes text.new ≡ string_bytes text.old ++ setting_text key value.now) }
{
    text.push(char::from(key))?;
    write!(text, "={value}")
}
