//! A picture of a connection's packets, with a finding marked.

use crate::drawn::Drawn;
use crate::packets::{Packet, Says};
use crate::table::put_finding;
use judge_words::word_of;
use std::alloc::{AllocError, Global};
use std::io;
use tds_judge::{Direction, Finding};
use tds_packet::Direction as Way;
use view_paint::{
    BarMark, CHARACTER_WIDTHS, Flight, FlightEnd, Label, Line, Look, Panel, PlaceMark, Row, Scene,
    Sheet, Sort, Spot, broken, cut_to, paint_characters,
};

/// Draws what is kept of a connection; none where no byte of it was seen.
pub fn draw(alloc: Global, drawn: &Drawn) -> io::Result<Option<String>> {
    let Some((finding, packets)) = drawn.shown() else {
        return Ok(None);
    };
    let mut panel = Panel {
        lines: Vec::new(alloc),
        labels: Vec::new(alloc),
        flights: Vec::new(alloc),
    };
    let mut rows = Vec::new(alloc);
    let number = u32::try_from(drawn.stream).unwrap_or(u32::MAX);
    put_lines(&mut panel.lines, BarMark::Opened(number), 1)?;
    for packet in packets {
        put_packet(alloc, &mut panel, &mut rows, packet, finding)?;
    }
    let scene = scene_of(alloc, drawn.stream, finding, panel, rows)?;
    Ok(Some(paint_characters(alloc, &scene)?))
}

fn scene_of(
    alloc: Global,
    stream: u64,
    finding: Option<Finding>,
    panel: Panel,
    rows: Vec<Row>,
) -> io::Result<Scene> {
    let mut below = Vec::new(alloc);
    match finding {
        Some(finding) => {
            let mut text = String::new(alloc);
            put_finding(&mut text, stream, &finding)?;
            below.push(text)?;
        }
        None => below.push(String::from_str(alloc, "nothing is found")?)?,
    }
    let mut panels = Vec::new(alloc);
    panels.push(panel)?;
    let mut sheets = Vec::new(alloc);
    sheets.push(Sheet {
        rows,
        panels,
        note: String::new(alloc),
    })?;
    Ok(Scene {
        title: format!(in alloc; "connection {stream}")?,
        description: String::new(alloc),
        head: format!(in alloc;
            "connection {stream}: packets in the order in which they were seen whole"
        )?,
        width: 1,
        sheets,
        below,
    })
}

/// Appends lines through which both ends run down: the first one with this mark.
fn put_lines(lines: &mut Vec<Line>, first: BarMark, count: usize) -> Result<(), AllocError> {
    for index in 0..count {
        let mark = if index == 0 { first } else { BarMark::Life };
        lines.push(Line {
            place: PlaceMark::Nothing,
            client: mark,
            server: mark,
            request: 0,
            is_rule: false,
        })?;
    }
    Ok(())
}

/// Draws a packet: where it leaves and comes, what it is, and the finding if it has it.
fn put_packet(
    alloc: Global,
    panel: &mut Panel,
    rows: &mut Vec<Row>,
    packet: &Packet,
    finding: Option<Finding>,
) -> Result<(), AllocError> {
    let line = panel.lines.len();
    let marks = put_marks(alloc, panel, packet, finding)?;
    put_lines(
        &mut panel.lines,
        BarMark::Life,
        marks.saturating_add(1).max(2),
    )?;
    rows.push(Row {
        line,
        number: None,
        text: format!(in alloc; "{} us", packet.time)?,
        is_muted: false,
    })?;
    let says = says_text(alloc, packet)?;
    let spot = match packet.direction {
        Direction::ToServer => Spot::Client,
        Direction::ToClient => Spot::Server,
    };
    panel.labels.push(label(line, spot, Look::Plain, says))?;
    let flight = flight_of(alloc, packet, line)?;
    panel.flights.push(flight)?;
    Ok(())
}

/// Marks the finding, where it stands in the packet: on how many lines below its first one.
fn put_marks(
    alloc: Global,
    panel: &mut Panel,
    packet: &Packet,
    finding: Option<Finding>,
) -> Result<usize, AllocError> {
    let first = panel.lines.len().saturating_add(1);
    let Some(finding) = finding else {
        return Ok(0);
    };
    if !packet.has(finding.spot.direction, finding.spot.offset) {
        return Ok(0);
    }
    let spaced = with_spaces(alloc, word_of(finding.name))?;
    let texts = broken(
        alloc,
        spaced.as_str(),
        CHARACTER_WIDTHS.client.saturating_sub(2),
    )?;
    let mut count = 0usize;
    for text in texts.iter() {
        let line = first.saturating_add(count);
        let marked = format!(in alloc; "* {text}")?;
        panel
            .labels
            .push(label(line, Spot::Client, Look::Red, marked))?;
        count = count.saturating_add(1);
    }
    Ok(count)
}

/// A finding's name with spaces, at which it may be broken.
fn with_spaces(alloc: Global, word: &str) -> Result<String, AllocError> {
    let mut text = String::new(alloc);
    for part in word.split("-") {
        if text.len() > 0 {
            text.push_str(" ")?;
        }
        text.push_str(part)?;
    }
    Ok(text)
}

fn label(line: usize, spot: Spot, look: Look, text: String) -> Label {
    Label {
        line,
        spot,
        look,
        request: 0,
        has_badge: false,
        text,
        is_first: true,
        is_last: false,
    }
}

fn flight_of(alloc: Global, packet: &Packet, line: usize) -> Result<Flight, AllocError> {
    let direction = match packet.direction {
        Direction::ToServer => Way::ToServer,
        Direction::ToClient => Way::ToClient,
    };
    Ok(Flight {
        direction,
        sort: sort_of(packet),
        request: packet.request,
        name: String::from_str(alloc, name_of(packet))?,
        size: packet.size,
        came: packet.size,
        packet: line,
        from: Some(line),
        parts: Vec::new(alloc),
        end: FlightEnd::Came(line.saturating_add(1)),
        note: String::new(alloc),
    })
}

fn sort_of(packet: &Packet) -> Sort {
    match packet.direction {
        Direction::ToServer if packet.kind == 6 => Sort::Attention,
        Direction::ToServer if packet.status / 2 % 2 == 1 => Sort::Ignore,
        Direction::ToServer => Sort::Request,
        Direction::ToClient if packet.says.acknowledges => Sort::Acknowledgement,
        Direction::ToClient => Sort::Answer,
    }
}

/// What a packet is (MS-TDS 2.2.3.1.1).
fn name_of(packet: &Packet) -> &'static str {
    match packet.kind {
        1 => "batch",
        3 => "RPC",
        4 => "answer",
        6 => "attention",
        7 => "bulk load",
        8 => "token",
        14 => "transaction",
        16 => "LOGIN7",
        17 => "SSPI",
        18 => "PRELOGIN",
        _ => "?",
    }
}

/// What stands in a packet, as far as it is of the session.
fn says_text(alloc: Global, packet: &Packet) -> Result<String, AllocError> {
    let mut text = String::new(alloc);
    match packet.direction {
        Direction::ToServer => {
            put_if(&mut text, packet.status / 8 % 2 == 1, "reset")?;
            put_if(&mut text, packet.status / 16 % 2 == 1, "reset, keeps")?;
            put_if(&mut text, packet.status / 2 % 2 == 1, "ignore")?;
            put_if(&mut text, packet.status % 2 == 0, "more")?;
        }
        Direction::ToClient => put_says(&mut text, packet.says)?,
    }
    cut_to(alloc, text.as_str(), CHARACTER_WIDTHS.client)
}

fn put_says(text: &mut String, says: Says) -> Result<(), AllocError> {
    put_if(text, says.resets, "reset")?;
    put_if(text, says.begins, "begin")?;
    put_if(text, says.ends, "end")?;
    put_if(text, says.is_error, "error")?;
    put_if(text, says.acknowledges, "DONE attn")?;
    put_if(
        text,
        says.done && !says.acknowledges && says.more,
        "DONE more",
    )?;
    put_if(text, says.done && !says.acknowledges && !says.more, "DONE")
}

/// Appends a word behind others, where it is so.
fn put_if(text: &mut String, is: bool, word: &str) -> Result<(), AllocError> {
    if !is {
        return Ok(());
    }
    if text.len() > 0 {
        text.push_str(", ")?;
    }
    text.push_str(word)
}
