//! Texts that are appended.

use std::alloc::AllocError;

/// Appends each of these texts.
pub(crate) fn put_all(body: &mut String, texts: &[&str]) -> Result<(), AllocError> {
    for text in texts {
        body.push_str(text)?;
    }
    Ok(())
}
