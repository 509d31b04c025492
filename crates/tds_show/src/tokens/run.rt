//! The command `tokens`.
ghost use Rattle.std.specs.Prelude.{◌≡◌, ◌⊎◌, true, IfErr, IfOk, string_bytes};
ghost use Rattle.tds_show.specs.Answers.{shown_after};
ghost use Rattle.tds_show.specs.Runs.{EndsFaulty, Prints, StopsBy, shown_word};

use crate::ending::tell;
use crate::tokens::answers::put_answers;
use std::alloc::{AllocError, Global};
use std::io::Write;
use tds_text::{RenderFault, WordFault, word_bytes, write_whole};

/// Prints the tokens of the answers' packets that a word of hexadecimal digits spells. The first
/// fault ends the text. It answers the exit status: 0 if all was shown without a fault, else 1. A
/// line goes to `errors` where the text doesn't go out whole.
pub fn run_tokens<W: Write, F: Write>(
    alloc: Global,
    word: &str,
    output: &mut W,
    errors: &mut F,
) -> u8
    ensures status { (result ≡ 0) ⊎ (result ≡ 1) }
    ensures whole { result ≡ 0
        → Prints word.now true (W.contents output.old) (W.contents output.new) }
    ensures silent { result ≡ 0 → F.contents errors.new ≡ F.contents errors.old }
    ensures faulty { result ≡ 1
        → EndsFaulty word.now (W.contents output.old) (W.contents output.new)
        (F.contents errors.old) (F.contents errors.new) }
{
    match print(alloc, word, output) {
        Ok(true) => 0,
        Ok(false) => 1,
        Err(fault) => {
            tell(&fault, errors);
            1
        }
    }
}

/// Prints the text of a word. Whether it has no fault.
fn print<W: Write>(alloc: Global, word: &str, output: &mut W) -> Result<bool, RenderFault>
    ensures whole { IfOk result
        (λ is_well. Prints word.now is_well (W.contents output.old) (W.contents output.new)) }
    ensures stops { IfErr result
        (λ fault. StopsBy fault word.now (W.contents output.old) (W.contents output.new)) }
{
    let mut text = String::new(alloc);
    let is_well = put_word(alloc, &mut text, word)?;
    write_whole(output, text.as_str())?;
    Ok(is_well)
}

/// Appends the text of a word. Whether it has no fault.
fn put_word(alloc: Global, text: &mut String, word: &str) -> Result<bool, AllocError>
    ensures { IfOk result (λ is_well. record { text = string_bytes text.new; is_well = is_well }
        ≡ shown_after (string_bytes text.old) (shown_word word.now)) }
{
    match word_bytes(alloc, word) {
        Ok(bytes) => put_answers(alloc, text, bytes.as_slice()),
        Err(WordFault::NotHexadecimal) => {
            text.push_str("fault hex\n")?;
            Ok(false)
        }
        Err(WordFault::Memory) => Err(AllocError),
    }
}
