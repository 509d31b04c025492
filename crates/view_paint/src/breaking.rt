//! Texts that are broken into lines.

use std::alloc::{AllocError, Global};

/// The most lines of a text.
const MOST: usize = 3;

/// The lines of an ASCII text, three at most, each at most so wide: it is broken behind a space or a semicolon. What is
/// cut off leaves two dots.
pub fn broken(alloc: Global, text: &str, width: usize) -> Result<Vec<String>, AllocError> {
    let lines = lines_of(alloc, text.as_bytes(), width)?;
    texts_of(alloc, lines.as_slice(), width)
}

/// The first lines as texts; the last of them is dotted where there are more.
fn texts_of(alloc: Global, lines: &[Vec<u8>], width: usize) -> Result<Vec<String>, AllocError> {
    let mut texts = Vec::new(alloc);
    for line in lines.iter().take(MOST) {
        let is_cut = lines.len() > MOST && texts.len().saturating_add(1) == MOST;
        texts.push(line_text(alloc, trimmed(line.as_slice()), width, is_cut)?)?;
    }
    Ok(texts)
}

/// A line as a text, dotted where more is cut off.
fn line_text(alloc: Global, line: &[u8], width: usize, is_cut: bool) -> Result<String, AllocError> {
    match is_cut {
        true => dotted(alloc, line, width),
        false => String::from_utf8_lossy(alloc, line),
    }
}

/// All lines of a text, with the spaces at their ends.
fn lines_of(alloc: Global, text: &[u8], width: usize) -> Result<Vec<Vec<u8>>, AllocError> {
    let mut lines = Vec::new(alloc);
    let mut line = Vec::new(alloc);
    put_pieces(alloc, &mut lines, &mut line, text, width)?;
    lines.push(line)?;
    Ok(lines)
}

/// Puts each piece of a text behind a line, or begins the next line with it.
fn put_pieces(
    alloc: Global,
    lines: &mut Vec<Vec<u8>>,
    line: &mut Vec<u8>,
    text: &[u8],
    width: usize,
) -> Result<(), AllocError> {
    let mut begin = 0usize;
    for (index, byte) in text.iter().enumerate() {
        if matches!(*byte, b' ' | b';') {
            let end = index.saturating_add(1);
            let piece = text.get(begin..end).unwrap_or(&[]);
            put_piece(alloc, lines, line, piece, width)?;
            begin = end;
        }
    }
    put_piece(alloc, lines, line, text.get(begin..).unwrap_or(&[]), width)
}

/// Puts a piece behind a line, or begins the next line with it.
fn put_piece(
    alloc: Global,
    lines: &mut Vec<Vec<u8>>,
    line: &mut Vec<u8>,
    piece: &[u8],
    width: usize,
) -> Result<(), AllocError> {
    let needed = trimmed(piece).len();
    if !line.is_empty() && line.len().saturating_add(needed) > width {
        lines.push(Vec::from_slice(alloc, line.as_slice())?)?;
        line.clear();
    }
    if needed > width {
        let cut = dotted(alloc, piece, width)?;
        return line.extend_from_slice(cut.as_bytes());
    }
    line.extend_from_slice(piece)
}

/// A text without the spaces at its end.
fn trimmed(text: &[u8]) -> &[u8] {
    let end = text.iter().rposition(|byte| *byte != b' ');
    match end {
        Some(end) => text.get(..=end).unwrap_or(&[]),
        None => &[],
    }
}

/// A text and two dots, cut so that both are at most so wide.
fn dotted(alloc: Global, text: &[u8], width: usize) -> Result<String, AllocError> {
    let front = text.get(..width.saturating_sub(2)).unwrap_or(text);
    let mut cut = String::from_utf8_lossy(alloc, front)?;
    cut.push_str("..")?;
    Ok(cut)
}

/// An ASCII text, cut where it is wider.
pub fn cut_to(alloc: Global, text: &str, width: usize) -> Result<String, AllocError> {
    if text.len() <= width {
        return String::from_str(alloc, text);
    }
    dotted(alloc, text.as_bytes(), width)
}
