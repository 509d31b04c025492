//! What is printed.

use crate::watch::{Row, Watch};
use judge_words::{level_text, section_of, sentence_of, word_of};
use std::alloc::AllocError;
use std::fmt::Write;
use std::io;
use tds_judge::{Direction, Finding, Level};

/// Prints the findings, the most serious first, and a last line of counts; or each as an object.
pub fn put_tables(rt: &HostRuntime, watch: &Watch, is_json: bool) -> io::Result<()> {
    if is_json {
        return put_objects(rt, watch.rows());
    }
    put_level(rt, watch.rows(), Level::Breach)?;
    put_level(rt, watch.rows(), Level::Risk)?;
    put_level(rt, watch.rows(), Level::Note)?;
    put_counts(rt, watch)
}

/// Prints the findings of one level.
fn put_level(rt: &HostRuntime, rows: &[Row], level: Level) -> io::Result<()> {
    for row in rows {
        if row.finding.name.level() == level {
            put_row(rt, row)?;
        }
    }
    Ok(())
}

fn put_row(rt: &HostRuntime, row: &Row) -> io::Result<()> {
    let mut text = String::new(rt.alloc());
    put_finding(&mut text, row.stream, &row.finding)?;
    println!(rt; "{text}")
}

/// Appends a finding's line.
pub fn put_finding(text: &mut String, stream: u64, finding: &Finding) -> Result<(), AllocError> {
    write!(
        text,
        "{} connection {stream} ",
        level_text(finding.name.level())
    )?;
    write!(text, "{} at {} ", way(finding), finding.spot.offset)?;
    write!(
        text,
        "after {} us: {}",
        finding.spot.time,
        word_of(finding.name)
    )?;
    if finding.value != 0 {
        write!(text, " ({})", finding.value)?;
    }
    write!(
        text,
        ": {} [{}]",
        sentence_of(finding.name),
        section_of(finding.name)
    )
}

/// Which way the bytes went.
fn way(finding: &Finding) -> &'static str {
    match finding.spot.direction {
        Direction::ToServer => "to the server",
        Direction::ToClient => "to the client",
    }
}

fn put_objects(rt: &HostRuntime, rows: &[Row]) -> io::Result<()> {
    for row in rows {
        put_object(rt, row)?;
    }
    Ok(())
}

/// A finding as an object. No text in it has a character that JSON escapes.
fn put_object(rt: &HostRuntime, row: &Row) -> io::Result<()> {
    let finding = row.finding;
    print!(rt;
        "{{\"connection\":{},\"number\":{}",
        row.stream,
        finding.name.number()
    )?;
    print!(rt; ",\"finding\":\"{}\"", word_of(finding.name))?;
    print!(rt; ",\"level\":\"{}\"", level_text(finding.name.level()))?;
    print!(rt;
        ",\"direction\":\"{}\",\"offset\":{}",
        way(&finding),
        finding.spot.offset
    )?;
    print!(rt;
        ",\"time\":{},\"value\":{}",
        finding.spot.time, finding.value
    )?;
    println!(rt; ",\"section\":\"{}\"}}", section_of(finding.name))
}

fn put_counts(rt: &HostRuntime, watch: &Watch) -> io::Result<()> {
    let breaches = watch.count_of(Level::Breach);
    let risks = watch.count_of(Level::Risk);
    let notes = watch.count_of(Level::Note);
    print!(rt;
        "{} connections: {breaches} breaches, ",
        watch.connections()
    )?;
    println!(rt;
        "{risks} risks, {notes} notes; {} not judged to the end",
        watch.unjudged()
    )
}
