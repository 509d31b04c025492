//! The vectors: packets that the readers and the writers are held to.
ghost use Rattle.std.specs.Prelude.{◌≡◌, ◌⊎◌};

mod packet;

use crate::ending::status_of;
use packet::comes_back;
use std::alloc::{AllocError, Global};
use std::io::Write;
use tds_text::{RenderFault, WordFault, word_bytes, write_whole};

/// A packet that is known from outside.
#[derive(Clone, Copy, Debug)]
pub struct Vector<'a> {
    pub name: &'a str,
    /// What the packet is.
    pub meaning: &'a str,
    /// Its bytes, two hexadecimal digits each.
    pub digits: &'a str,
}

/// The vectors.
pub const VECTORS: [Vector<'static>; 13] = [
    Vector {
        name: "V1",
        meaning: "begin, isolation level 0, descriptor 0",
        digits: "0E010022000001001600000012000000020000000000000000000100000005000000",
    },
    Vector {
        name: "V2",
        meaning: "the answer to a begin, descriptor 1",
        digits: "0401002300000100E30B000808010000000000000000FD000000000000000000000000",
    },
    Vector {
        name: "V3",
        meaning: "an attention",
        digits: "0601000800000100",
    },
    Vector {
        name: "V4",
        meaning: "an acknowledgement alone",
        digits: "0401001500000100FD200000000000000000000000",
    },
    Vector {
        name: "V5",
        meaning: "the packet that lets a batch be ignored, its second",
        digits: "0103000800000200",
    },
    Vector {
        name: "V6",
        meaning: "a step of `say a`",
        digits: "0400002800000100AB100050C30000010001006100000000000000FD010000000000000000000000",
    },
    Vector {
        name: "V7",
        meaning: "a step of `get x`, which isn't set",
        digits: "0400001A000001007900000000FD010000000000000000000000",
    },
    Vector {
        name: "V8",
        meaning: "the step of a reset",
        digits: "0400000E00000100E30300120000",
    },
    Vector {
        name: "V9",
        meaning: "a step of `commit`, descriptor 1, third packet",
        digits: "0400002300000300E30B000900080100000000000000FD010000000000000000000000",
    },
    Vector {
        name: "V10",
        meaning: "the step of a text that isn't in the language",
        digits: "0400002500000100AA1A0051C3000001100600730079006E00740061007800000000000000",
    },
    Vector {
        name: "V11",
        meaning: "a step of `rows 5 2`",
        digits: "0400002C0000010081010000000000000038016E00D105000000D106000000FD110000000200000000000000",
    },
    Vector {
        name: "V12",
        meaning: "the batch `get x` with a full reset, descriptor 0",
        digits: "01090028000001001600000012000000020000000000000000000100000067006500740020007800",
    },
    Vector {
        name: "V13",
        meaning: "the final DONE after an error, second packet",
        digits: "0401001500000200FD020000000000000000000000",
    },
];

/// Checks each vector, and prints whether the readers and the writers agree with it. It answers the
/// exit status: 0 if they agree with all, else 1. A line goes to `errors` where the text doesn't go
/// out whole.
pub fn run_vectors<W: Write, F: Write>(alloc: Global, output: &mut W, errors: &mut F) -> u8
    ensures status { (result ≡ 0) ⊎ (result ≡ 1) }
    ensures silent { result ≡ 0 → F.contents errors.new ≡ F.contents errors.old }
{
    run_vectors_among(alloc, &VECTORS, output, errors)
}

/// The same of other vectors.
pub fn run_vectors_among<W: Write, F: Write>(
    alloc: Global,
    vectors: &[Vector<'_>],
    output: &mut W,
    errors: &mut F,
) -> u8
    ensures status { (result ≡ 0) ⊎ (result ≡ 1) }
    ensures silent { result ≡ 0 → F.contents errors.new ≡ F.contents errors.old }
{
    status_of(check(alloc, vectors, output), errors)
}

fn check<W: Write>(
    alloc: Global,
    vectors: &[Vector<'_>],
    output: &mut W,
) -> Result<bool, RenderFault> {
    let mut text = String::new(alloc);
    let mut all_agree = true;
    for vector in vectors {
        let agrees = agrees(alloc, vector.digits)?;
        put_line(&mut text, vector.name, agrees)?;
        all_agree = all_agree && agrees;
    }
    write_whole(output, text.as_str())?;
    Ok(all_agree)
}

fn put_line(text: &mut String, name: &str, agrees: bool) -> Result<(), AllocError> {
    text.push_str(name)?;
    text.push_str(if agrees { " ok\n" } else { " differs\n" })
}

/// Whether digits spell one packet that comes back when it is read and written again.
fn agrees(alloc: Global, digits: &str) -> Result<bool, AllocError> {
    match word_bytes(alloc, digits) {
        Ok(bytes) => comes_back(alloc, bytes.as_slice()),
        Err(WordFault::NotHexadecimal) => Ok(false),
        Err(WordFault::Memory) => Err(AllocError),
    }
}
