//! Laws of the definitions that `read_schedule` is stated by.
ghost use Rattle.std.specs.Prelude.{◌≡◌, None, List};
ghost use Rattle.serde_json.specs.Data.{Data};
ghost use Rattle.tds_world.specs.declared.event.Setup.{Setup};
ghost use Rattle.tds_world.specs.declared.event.Event.{Event};
ghost use Rattle.tds_text.specs.Schedule.{IsSchedule, wrong_place};

/// A value spells a schedule exactly where no place of it is wrong, and then only one.
pub fn right_or_wrong_somewhere()
    ensures right { (value : Data) (setup : Setup) (events : List Event)
        → IsSchedule value setup events → wrong_place value ≡ None }
    ensures wrong { (value : Data) → wrong_place value ≡ None
        → (setup : Setup) × (events : List Event) × IsSchedule value setup events }
    ensures one { (value : Data) (setup other : Setup) (events others : List Event)
        → IsSchedule value setup events → IsSchedule value other others
        → (setup ≡ other) × (events ≡ others) }
{}
