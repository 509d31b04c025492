ghost use Rattle.std.specs.Prelude.{◌≡◌, IfOk, Ok};
ghost use Rattle.tds_token.specs.declared.message.Message.{Message};
ghost use Rattle.tds_token.specs.Lent.{message_of};
ghost use Rattle.tds_token.specs.Reading.{message_in};

use crate::reading::fields_inside;
use crate::text::{Text, TextRef};
use std::alloc::{AllocError, Global};
use std::marker::Model;

/// What an INFO or an ERROR says (MS-TDS 2.2.7.13, 2.2.7.10). `class` is its severity, and `line`
/// the line of the batch.
#[derive(Debug, Drop)]
pub struct Message {
    pub number: i32,
    pub state: u8,
    pub class: u8,
    pub text: Text,
    pub server: Text,
    pub procedure: Text,
    pub line: i32,
}

/// A message that lies in a packet's data. Each field is read when it is asked for.
#[derive(Debug, Drop)]
pub struct MessageRef<'a> {
    /// What its Length counts.
    bytes: &'a [u8],
}

impl<'a> Model for MessageRef<'a> {
    ghost use Rattle.tds_token.specs.declared.message.Message.{Message};

    ghost Value = { Message };

    ghost use Rattle.tds_token.specs.Lent.{lent_message, IsLentMessage};

    ghost view = { lent_message };

    ghost invariant = { IsLentMessage };
}

impl<'a> MessageRef<'a> {
    /// The message that fills these bytes.
    pub(crate) fn new(bytes: &'a [u8]) -> MessageRef<'a>
        requires { (message : Message) × (message_in bytes.now ≡ Ok message) }
        ensures { message_in bytes.now ≡ Ok result }
    {
        MessageRef { bytes }
    }

    /// Its number.
    pub fn number(&self) -> i32
        ensures { result ≡ self.now.number }
    {
        self.fields().number
    }

    /// Its state.
    pub fn state(&self) -> u8
        ensures { result ≡ self.now.state }
    {
        self.fields().state
    }

    /// Its severity.
    pub fn class(&self) -> u8
        ensures { result ≡ self.now.class }
    {
        self.fields().class
    }

    /// Its text.
    pub fn text(&self) -> TextRef<'a>
        ensures { result ≡ self.now.text }
    {
        self.fields().text
    }

    /// The server's name.
    pub fn server(&self) -> TextRef<'a>
        ensures { result ≡ self.now.server }
    {
        self.fields().server
    }

    /// The procedure's name.
    pub fn procedure(&self) -> TextRef<'a>
        ensures { result ≡ self.now.procedure }
    {
        self.fields().procedure
    }

    /// The line of the batch.
    pub fn line(&self) -> i32
        ensures { result ≡ self.now.line }
    {
        self.fields().line
    }

    /// The same message, in memory of its own.
    pub fn own(&self, alloc: Global) -> Result<Message, AllocError>
        ensures { IfOk result (λ message. message ≡ self.now) }
    {
        let fields = self.fields();
        Ok(Message {
            number: fields.number,
            state: fields.state,
            class: fields.class,
            text: fields.text.own(alloc)?,
            server: fields.server.own(alloc)?,
            procedure: fields.procedure.own(alloc)?,
            line: fields.line,
        })
    }

    /// All its fields.
    fn fields(&self) -> Fields<'a>
        ensures { message_of result ≡ self.now }
    {
        let Ok(fields) = fields_inside(self.bytes) else {
            unreachable!();
        };
        fields
    }
}

/// The fields of a message, whose texts lie in a packet's data.
#[derive(Drop)]
pub(crate) struct Fields<'a> {
    pub(crate) number: i32,
    pub(crate) state: u8,
    pub(crate) class: u8,
    pub(crate) text: TextRef<'a>,
    pub(crate) server: TextRef<'a>,
    pub(crate) procedure: TextRef<'a>,
    pub(crate) line: i32,
}
