//! What steps say behind ALL_HEADERS: the text of a batch, of two bytes a unit, or a call by its number (MS-TDS 2.2.6.6,
//! 2.2.6.7).

ghost use Rattle.std.specs.Prelude.{◌≡◌, ◌≤◌, length};
ghost use Rattle.relay_questions.specs.Requests.{set_text, select_text, isolate_text, make_table_text, open_cursor_text, lock_text, begin_text, prepare_call, unprepare_call, wait_text, text_of};

use crate::step::Step;

/// What a step says, but for a handle.
pub(crate) fn text_of(step: Step) -> &'static [u8]
    ensures is { result.now ≡ text_of step }
    ensures short { length result.now ≤ 200 }
{
    match step {
        Step::Set | Step::SetAgain => set_text(),
        Step::Reset | Step::ResetButTransaction | Step::ResetTransaction => select_text(),
        Step::AskOnceMore | Step::ResetAll => select_text(),
        Step::Isolate => isolate_text(),
        Step::MakeTable | Step::MakeTableAgain => make_table_text(),
        Step::OpenCursor => open_cursor_text(),
        Step::Lock => lock_text(),
        Step::Begin => begin_text(),
        Step::Prepare => prepare_call(),
        Step::Unprepare => unprepare_call(),
        Step::SetAndWait => wait_text(),
    }
}

/// A setting.
fn set_text() -> &'static [u8]
    ensures is { result.now ≡ set_text }
    ensures short { length result.now ≤ 200 }
{
    b"s\0e\0t\0 \0l\0o\0c\0k\0_\0t\0i\0m\0e\0o\0u\0t\0 \05\0"
}

/// Nothing that stays.
fn select_text() -> &'static [u8]
    ensures is { result.now ≡ select_text }
    ensures short { length result.now ≤ 200 }
{
    b"s\0e\0l\0e\0c\0t\0 \01\0"
}

/// An isolation level.
fn isolate_text() -> &'static [u8]
    ensures is { result.now ≡ isolate_text }
    ensures short { length result.now ≤ 200 }
{
    b"s\0e\0t\0 \0t\0r\0a\0n\0s\0a\0c\0t\0i\0o\0n\0 \0i\0s\0o\0l\0a\0t\0i\0o\0n\0 \0l\0e\0v\0e\0l\0 \0s\0e\0r\0i\0a\0l\0i\0z\0a\0b\0l\0e\0"
}

/// A temporary table.
fn make_table_text() -> &'static [u8]
    ensures is { result.now ≡ make_table_text }
    ensures short { length result.now ≤ 200 }
{
    b"c\0r\0e\0a\0t\0e\0 \0t\0a\0b\0l\0e\0 \0#\0t\0d\0s\0r\0e\0l\0a\0y\0 \0(\0n\0 \0i\0n\0t\0)\0"
}

/// A cursor.
fn open_cursor_text() -> &'static [u8]
    ensures is { result.now ≡ open_cursor_text }
    ensures short { length result.now ≤ 200 }
{
    b"d\0e\0c\0l\0a\0r\0e\0 \0t\0d\0s\0r\0e\0l\0a\0y\0 \0c\0u\0r\0s\0o\0r\0 \0g\0l\0o\0b\0a\0l\0 \0f\0o\0r\0 \0s\0e\0l\0e\0c\0t\0 \01\0"
}

/// An application lock, which others may have too.
fn lock_text() -> &'static [u8]
    ensures is { result.now ≡ lock_text }
    ensures short { length result.now ≤ 200 }
{
    b"e\0x\0e\0c\0 \0s\0p\0_\0g\0e\0t\0a\0p\0p\0l\0o\0c\0k\0 \0@\0R\0e\0s\0o\0u\0r\0c\0e\0 \0=\0 \0'\0t\0d\0s\0r\0e\0l\0a\0y\0'\0,\0 \0@\0L\0o\0c\0k\0M\0o\0d\0e\0 \0=\0 \0'\0S\0h\0a\0r\0e\0d\0'\0,\0 \0@\0L\0o\0c\0k\0O\0w\0n\0e\0r\0 \0=\0 \0'\0S\0e\0s\0s\0i\0o\0n\0'\0"
}

/// A transaction.
fn begin_text() -> &'static [u8]
    ensures is { result.now ≡ begin_text }
    ensures short { length result.now ≤ 200 }
{
    b"b\0e\0g\0i\0n\0 \0t\0r\0a\0n\0s\0a\0c\0t\0i\0o\0n\0"
}

/// `sp_prepare`: a handle that is returned, no parameters, and a text.
fn prepare_call() -> &'static [u8]
    ensures is { result.now ≡ prepare_call }
    ensures short { length result.now ≤ 200 }
{
    b"\xff\xff\x0b\0\0\0\0\x01\x26\x04\0\0\0\xe7\x40\x1f\x09\x04\xd0\0\x34\0\0\0\0\xe7\x40\x1f\x09\x04\xd0\0\x34\x10\0s\0e\0l\0e\0c\0t\0 \01\0"
}

/// `sp_unprepare`, up to the handle.
fn unprepare_call() -> &'static [u8]
    ensures is { result.now ≡ unprepare_call }
    ensures short { length result.now ≤ 200 }
{
    b"\xff\xff\x0f\0\0\0\0\0\x26\x04\x04"
}

/// A setting, something that is told at once, and time for a cancel.
fn wait_text() -> &'static [u8]
    ensures is { result.now ≡ wait_text }
    ensures short { length result.now ≤ 200 }
{
    b"s\0e\0t\0 \0l\0o\0c\0k\0_\0t\0i\0m\0e\0o\0u\0t\0 \05\0;\0 \0r\0a\0i\0s\0e\0r\0r\0o\0r\0(\0'\0t\0d\0s\0r\0e\0l\0a\0y\0'\0,\0 \00\0,\0 \01\0)\0 \0w\0i\0t\0h\0 \0n\0o\0w\0a\0i\0t\0;\0 \0w\0a\0i\0t\0f\0o\0r\0 \0d\0e\0l\0a\0y\0 \0'\00\00\0:\00\00\0:\00\00\0.\09\00\00\0'\0"
}
