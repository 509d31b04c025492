//! What of a batch is a client program's or a driver's own.
ghost use Rattle.std.specs.Prelude.{◌≡◌, ◌≤◌, length, true};
ghost use Rattle.tds_login.specs.LineEnds.{left_of, least_of};
ghost use Rattle.tds_login.specs.LineEnds as spelled;

/// The bytes of the headers before a batch's text (MS-TDS 2.2.5.3).
const HEADERS: usize = 22;

/// The setting that FreeTDS sends by itself where its configuration has a text size.
const OWN_SETTING: &[u8] = b"set textsize ";

/// How many bytes of a batch's last packet are left without the blanks and the ends of lines behind its
/// text: command-line clients send them behind each batch. Of a packet that is a whole batch, the headers
/// and one unit stay.
pub fn without_line_ends(data: &[u8], is_whole: bool) -> usize
    ensures left { result ≡ left_of «data».now (least_of is_whole) (length «data».now) }
    ensures within { result ≤ length «data».now }
{
    let least = if is_whole { HEADERS + 2 } else { 0 };
    let mut end = data.len();
    while end > least && ends_blank(data, end) {
        end -= 2;
    }
    end
}

/// Whether the last unit of the first `end` bytes is a blank, a tab, or an end of a line.
fn ends_blank(data: &[u8], end: usize) -> bool
    requires { end ≤ length «data».now }
    ensures is { result ≡ spelled.ends_blank «data».now end }
    ensures two { result ≡ true → 2 ≤ end }
{
    end >= 2 && data[end - 1] == 0 && matches!(data[end - 2], b' ' | b'\t' | b'\n' | b'\r')
}

/// Whether a batch's data, headers and text, are one setting that a driver sends by itself:
/// `set textsize N`, in small or capital letters.
pub fn is_own_setting(data: &[u8]) -> bool {
    let Some(text) = data.get(HEADERS..) else {
        return false;
    };
    let mut heads = OWN_SETTING.iter();
    for unit in text.chunks_exact(2) {
        let [byte, 0] = unit else {
            return false;
        };
        let is_right = match heads.next() {
            Some(head) => byte.to_ascii_lowercase() == *head,
            None => matches!(byte, b'0'..=b'9' | b' '),
        };
        if !is_right {
            return false;
        }
    }
    heads.next().is_none()
}
