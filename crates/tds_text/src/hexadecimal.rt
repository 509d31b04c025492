//! Bytes as a word of hexadecimal digits.
ghost use Rattle.std.specs.Prelude.{◌≡◌, ◌≢◌, None, Some, IfOk, IsErrOf};
ghost use Rattle.hex.specs.declared.error.FromHexError.{FromHexError};
ghost use Rattle.tds_text.specs.declared.hexadecimal.WordFault.{WordFault};
ghost use Rattle.tds_text.specs.Faults.{word_fault_number};
ghost use Rattle.tds_text.specs.Words.{IsHexWord, bytes_spelled};

use hex::FromHexError;
use std::alloc::Global;

/// Why a word spells no bytes.
#[derive(Debug, Drop)]
pub enum WordFault {
    /// 1: the count of its digits is odd, or one of them isn't hexadecimal.
    NotHexadecimal,
    /// 2: memory.
    Memory,
}

impl WordFault {
    /// The fault's number.
    pub fn number(&self) -> u8
        ensures { result ≡ word_fault_number self.now }
    {
        match self {
            WordFault::NotHexadecimal => 1,
            WordFault::Memory => 2,
        }
    }
}

/// The bytes that a word spells: two hexadecimal digits a byte, in either case.
pub fn word_bytes(alloc: Global, word: &str) -> Result<Vec<u8>, WordFault>
    ensures bytes { IfOk result (λ bytes. bytes_spelled word.now ≡ Some bytes.items) }
    ensures digits { IfOk result (λ _. IsHexWord word.now) }
    ensures wrong { IsErrOf result WordFault.NotHexadecimal → ¬ IsHexWord word.now }
    ensures none { IsErrOf result WordFault.NotHexadecimal → bytes_spelled word.now ≡ None }
{
    match hex::decode(alloc, word) {
        Ok(bytes) => Ok(bytes),
        Err(error) => Err(fault_of(error)),
    }
}

/// Why `hex` read no bytes.
fn fault_of(error: FromHexError) -> WordFault
    ensures { result ≡ WordFault.NotHexadecimal → error ≢ FromHexError.OutOfMemory }
{
    match error {
        FromHexError::OutOfMemory => WordFault::Memory,
        FromHexError::InvalidHexCharacter { .. } => WordFault::NotHexadecimal,
        FromHexError::OddLength => WordFault::NotHexadecimal,
        FromHexError::InvalidStringLength => WordFault::NotHexadecimal,
    }
}
