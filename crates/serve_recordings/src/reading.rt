//! Recordings in files: JSON objects with the keys `format`, `version` and `probes`, and others that aren't
//! looked at.

use crate::digits::bytes_of;
use crate::fault::RecordingFault;
use crate::gathering::{Gathering, Way};
use crate::places::{Path, offset_of};
use crate::recording::Recording;
use json_places::{Outline, Page, put_json_fault, put_place, put_standing};
use serde_json::Value;
use std::alloc::{AllocError, Global};
use std::fmt::Write;

/// What a recording says that it is.
const FORMAT: &str = "tdsprobe recording";

/// Reads a recording of this name.
pub fn read_recording(
    alloc: Global,
    name: &str,
    bytes: &[u8],
) -> Result<Recording, RecordingFault> {
    let reader = Reader {
        alloc,
        page: Page { name, bytes },
    };
    let mut text = String::new(alloc);
    match reader.read(&mut text)? {
        Some(recording) => Ok(recording),
        None => Err(RecordingFault::Wrong(text)),
    }
}

/// A file that is read.
#[derive(Clone, Copy)]
struct Reader<'a> {
    alloc: Global,
    page: Page<'a>,
}

impl Reader<'_> {
    /// The recording; or what is wrong first is appended.
    fn read(&self, text: &mut String) -> Result<Option<Recording>, AllocError> {
        match Value::from_slice(self.alloc, self.page.bytes) {
            Ok(value) => self.read_value(text, &value),
            Err(error) if error.is_memory() => Err(AllocError),
            Err(_) => {
                put_json_fault(self.alloc, text, self.page)?;
                text.pop();
                Ok(None)
            }
        }
    }

    fn read_value(
        &self,
        text: &mut String,
        value: &Value,
    ) -> Result<Option<Recording>, AllocError> {
        let format = value.get("format").and_then(Value::as_str);
        if format != Some(FORMAT) {
            self.put_key(text, value, "format", "the text \"tdsprobe recording\"")?;
            return Ok(None);
        }
        if value.get("version").and_then(Value::as_u64) != Some(1) {
            self.put_key(text, value, "version", "the number 1")?;
            return Ok(None);
        }
        let Some(probes) = value.get("probes").and_then(Value::as_array) else {
            self.put_key(text, value, "probes", "an array")?;
            return Ok(None);
        };
        let mut recording = Recording::new(self.alloc);
        for (probe, value) in probes.iter().enumerate() {
            if !self.read_probe(text, &mut recording, probe, value)? {
                return Ok(None);
            }
        }
        Ok(Some(recording))
    }

    /// Appends that a key of the file is to be this, and what stands there.
    fn put_key(
        &self,
        text: &mut String,
        value: &Value,
        key: &str,
        wanted: &str,
    ) -> Result<(), AllocError> {
        let outline = Outline::read(self.alloc, self.page.bytes)?;
        let at = outline.value_at(key).unwrap_or(outline.start);
        put_place(text, self.page, at)?;
        if !value.is_object() {
            text.push_str("a recording is an object; ")?;
            return self.put_found(text, value);
        }
        match value.get(key) {
            Some(found) => {
                write!(text, "\"{key}\" is {wanted}; ")?;
                self.put_found(text, found)
            }
            None => write!(text, "the key \"{key}\" is missing"),
        }
    }

    /// Appends what stands there.
    fn put_found(&self, text: &mut String, found: &Value) -> Result<(), AllocError> {
        put_standing(self.alloc, text, found)?;
        text.pop();
        Ok(())
    }

    /// Reads a probe's connections; false where one is wrong.
    fn read_probe(
        &self,
        text: &mut String,
        recording: &mut Recording,
        probe: usize,
        value: &Value,
    ) -> Result<bool, AllocError> {
        let path = Path {
            probe,
            connection: None,
            event: None,
        };
        let Some(connections) = value.get("connections").and_then(Value::as_array) else {
            let wanted = "a probe has \"connections\", an array";
            return self.put_wrong(text, path, "connections", wanted);
        };
        for (index, value) in connections.iter().enumerate() {
            let path = Path {
                connection: Some(index),
                ..path
            };
            if !self.read_connection(text, recording, path, value)? {
                return Ok(false);
            }
        }
        Ok(true)
    }

    /// Appends a line of what is wrong there, and answers false.
    fn put_wrong(
        &self,
        text: &mut String,
        path: Path,
        key: &str,
        wanted: &str,
    ) -> Result<bool, AllocError> {
        let at = offset_of(self.alloc, self.page, path, key)?;
        put_place(text, self.page, at)?;
        text.push_str(wanted)?;
        Ok(false)
    }

    /// Reads the events of a connection; false where one is wrong.
    fn read_connection(
        &self,
        text: &mut String,
        recording: &mut Recording,
        path: Path,
        value: &Value,
    ) -> Result<bool, AllocError> {
        let Some(events) = value.as_array() else {
            return self.put_wrong(text, path, "", "a connection is an array of events");
        };
        let mut gathering = Gathering::new(self.alloc, recording);
        for (index, event) in events.iter().enumerate() {
            let path = Path {
                event: Some(index),
                ..path
            };
            if !self.read_event(text, recording, &mut gathering, path, event)? {
                return Ok(false);
            }
        }
        gathering.finish(recording)?;
        Ok(true)
    }

    /// Reads an event; false where it is wrong.
    fn read_event(
        &self,
        text: &mut String,
        recording: &mut Recording,
        gathering: &mut Gathering,
        path: Path,
        event: &Value,
    ) -> Result<bool, AllocError> {
        let way = match event.get("way").and_then(Value::as_str) {
            Some("to server") => Way::ToServer,
            Some("to client") => Way::ToClient,
            Some("closed by server") => {
                gathering.close(recording)?;
                return Ok(true);
            }
            // others are of no bytes
            Some(_) => return Ok(true),
            None => return self.put_wrong(text, path, "way", "an event has \"way\", a text"),
        };
        let Some(spelled) = event.get("hex").and_then(Value::as_str) else {
            let wanted = "an event of bytes has \"hex\", a text";
            return self.put_wrong(text, path, "hex", wanted);
        };
        let bytes = match bytes_of(self.alloc, spelled)? {
            Ok(bytes) => bytes,
            Err(place) => {
                self.put_wrong(text, path, "hex", "")?;
                write!(text, "\"hex\" has no digit at character {place}")?;
                return Ok(false);
            }
        };
        if gathering.take(recording, way, bytes.as_slice())? {
            return Ok(true);
        }
        let wanted = "these bytes are no packets: the length of one is less than 8";
        self.put_wrong(text, path, "hex", wanted)
    }
}
