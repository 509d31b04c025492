//! Where in the tokens of an answer its bytes have led.
ghost use Rattle.std.specs.Prelude.{◌≡◌, min};
ghost use Rattle.tds_wire.specs.Bytes.{walk_restarted};
ghost use Rattle.tds_wire.specs.Inside.{IsBetween};
ghost use Rattle.tds_wire.specs.Memory.{due_in, walk_of};
ghost use Rattle.tds_wire.specs.Walking.{number_due};
ghost use Rattle.tds_wire.specs.declared.due.Due.TheVariants.{Broken, Run, Token};

mod columns;
mod feeding;
mod labels;
mod numbers;
mod parts;
mod rows;
mod tokens;
mod whole;

use crate::due::{At, Due, Field, Inside, Next};
use crate::fault::WireFault;
use crate::features::Features;
use crate::memory::Memory;
use crate::shape::Shape;
pub(crate) use whole::{
    change_length, counted_length, has_done, has_status, may_be_whole, reset_length,
};

/// Where bytes led.
pub enum Step {
    /// Over the end of a token, which is behind so many bytes.
    Over(usize),
    /// Into a token.
    Within,
    /// To a fault, of which the byte is the last of so many.
    Failed(WireFault, usize),
}

/// Where bytes have led, beside the columns and the null bitmap, which are in a memory. No value is kept.
#[derive(Clone, Copy)]
pub struct Cursor {
    pub at: At,
    /// For how many columns there is room, at most 4,096.
    pub most: u16,
    pub features: Features,
}

impl Cursor {
    /// Before the first token of an answer, with room for so many columns.
    pub fn new(most: u16, features: Features) -> Cursor
        ensures due { result.at.due ≡ Token }
        ensures most { result.most ≡ most }
        ensures features { result.features ≡ features }
    {
        Cursor {
            at: At {
                due: Due::Token,
                kind: 0,
                inside: Inside::Parameter,
                shape: Shape::Byte,
                ciphered: false,
                left: 0,
                parts: 0,
            },
            most,
            features,
        }
    }

    /// For how many columns there is room.
    fn room(&self) -> u16
        ensures { result ≡ min 4096 self.now.most }
    {
        if self.most < 4096 { self.most } else { 4096 }
    }

    /// Begins anew, before the first token of a message, with no columns.
    pub fn restart(&mut self, memory: &mut Memory)
        ensures state { walk_of self.new memory.new ≡ walk_restarted (walk_of self.old memory.old) }
        ensures between { IsBetween (walk_of self.new memory.new) }
    {
        memory.clear();
        memory.bounds();
        self.end();
    }

    /// A token has ended.
    fn end(&mut self)
        ensures { self.new ≡ due_in self.old Token }
    {
        self.at.due = Due::Token;
    }

    /// A number is due.
    fn expect(&mut self, field: Field)
        ensures { self.new ≡ due_in self.old (number_due field) }
    {
        self.at.due = Due::number(field);
    }

    /// A run of bytes is due, at least one.
    fn expect_run(&mut self, left: u64, next: Next)
        ensures { self.new ≡ due_in self.old (Run left next) }
    {
        self.at.due = Due::Run { left, next };
    }

    fn break_by(&mut self, fault: WireFault)
        ensures { self.new ≡ due_in self.old (Broken fault) }
    {
        self.at.due = Due::Broken(fault);
    }
}
