//! Data classification.
ghost use Rattle.tds_wire.specs.Memory.{walk_of};
ghost use Rattle.std.specs.Prelude.{◌≡◌};
ghost use Rattle.tds_wire.specs.Walking.{behind_labels, classified, labelled};

use crate::cursor::Cursor;
use crate::due::{Field, LabelField, Next};
use crate::memory::Memory;

impl Cursor {
    /// The labels, or the types of information, have been passed.
    pub fn end_labels(&mut self, memory: &mut Memory, types: bool)
        ensures { walk_of self.new memory.new ≡ behind_labels types (walk_of self.old memory.old) }
    {
        if !types {
            self.expect(Field::Label(LabelField::Labels { types: true }));
        } else if self.features.ranks {
            self.expect_run(4, Next::Then(Field::Label(LabelField::SensitiveColumns)));
        } else {
            self.expect(Field::Label(LabelField::SensitiveColumns));
        }
    }

    /// One of them has been passed.
    #[tactic(auto, unfolding(crate::specs::Walking::labelled))]
    pub fn end_label(&mut self, memory: &mut Memory, types: bool)
        ensures { walk_of self.new memory.new ≡ labelled types (walk_of self.old memory.old) }
    {
        if self.at.left > 1 {
            self.at.left -= 1;
            self.expect(Field::Label(LabelField::LabelName { types }));
        } else {
            self.end_labels(memory, types);
        }
    }

    /// A column's properties have been passed.
    #[tactic(auto, unfolding(crate::specs::Walking::classified))]
    pub fn end_properties(&mut self, memory: &mut Memory)
        ensures { walk_of self.new memory.new ≡ classified (walk_of self.old memory.old) }
    {
        if self.at.left > 1 {
            self.at.left -= 1;
            self.expect(Field::Label(LabelField::Properties));
        } else {
            self.end();
        }
    }
}
