//! A reader of packets that has its buffer only while a packet comes.
ghost use Rattle.std.specs.Prelude.{◌≡◌, ◌≢◌, [], IfOk, OnOk, OnErr, MatchBool};
ghost use Rattle.tds_ends.specs.AllBytes.{new_reader};
ghost use Rattle.tds_ends.specs.Light.{TellsEmpty};
ghost use Rattle.tds_packet.specs.Reading.{with_taken};

use crate::NoMemory;
use std::alloc::Global;
use std::marker::Model;
use tds_packet::{Direction, PacketReader, PacketSize};

/// A reader of packets that has its buffer only while bytes of a packet are held.
///
/// `open` takes it out, with a buffer, and `close` puts it back.
#[derive(Drop)]
pub struct LightReader {
    alloc: Global,
    size: PacketSize,
    direction: Direction,
    /// `None` while no bytes are held. It is boxed so that an end that holds none stays small.
    reader: Option<Box<PacketReader>>,
}

impl Model for LightReader {
    ghost use Rattle.tds_packet.specs.Reading.{Reading};

    ghost Value = { Reading };

    ghost use Rattle.tds_ends.specs.Light.{reading_of, IsLight};

    ghost view = { reading_of };

    ghost invariant = { IsLight };
}

impl LightReader {
    /// A reader for packets of this size that go in this direction. It takes no memory.
    pub fn new(alloc: Global, size: PacketSize, direction: Direction) -> LightReader
        ensures { result ≡ new_reader direction size }
    {
        LightReader {
            alloc,
            size,
            direction,
            reader: None,
        }
    }

    /// Whether no bytes are held.
    pub fn is_empty(&self) -> bool
        ensures { TellsEmpty result self.now.taken }
    {
        self.reader.is_none()
    }

    /// The packet size.
    pub fn size(&self) -> PacketSize
        ensures { result ≡ self.now.size }
    {
        self.size
    }

    /// Takes the reader out. Where no bytes are held, its buffer is taken now, and memory may be
    /// wanted: nothing changes then.
    pub fn open(&mut self) -> Result<Box<PacketReader>, NoMemory>
        ensures lent { IfOk result (λ reader. reader.value ≡ self.old) }
        ensures left { OnOk result (self.new ≡ with_taken self.old []) }
        ensures refused { OnErr result ((self.new ≡ self.old) × (self.old.taken ≡ [])) }
    {
        match self.reader.take() {
            Some(reader) => Ok(reader),
            None => {
                let reader = PacketReader::new(self.alloc, self.size, self.direction)?;
                Ok(Box::new(self.alloc, reader)?)
            }
        }
    }

    /// Puts a reader back. Where it holds no bytes, its buffer is given back.
    pub fn close(&mut self, reader: Box<PacketReader>, is_empty: bool)
        requires same { with_taken reader.value [] ≡ with_taken self.old [] }
        requires empty { TellsEmpty is_empty reader.value.taken }
        ensures { self.new ≡ reader.value }
    {
        self.reader = if is_empty { None } else { Some(reader) };
    }
}
