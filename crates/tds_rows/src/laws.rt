//! What follows from the definitions alone. Each function does nothing when it runs: its contract is the law.
ghost use Rattle.std.specs.Prelude.{◌≡◌, ◌<◌, ◌++◌, ℕ, Bool, List, false, get_or, true};
ghost use Rattle.tds_rows.specs.Columns.{metadata_at};
ghost use Rattle.tds_rows.specs.Laws.{Divides, HasRoomFor, begins_row, described_as, passed_as};
ghost use Rattle.tds_rows.specs.Places.{values_placed, placed_row};
ghost use Rattle.tds_rows.specs.Pieces.{EndsParts, value_is_over, parts_after, parts_begun};
ghost use Rattle.tds_wire.specs.Layout.{Got, Short, token_at, value};
ghost use Rattle.tds_wire.specs.declared.shape.Shape.TheVariants as shapes;
ghost use Rattle.tds_rows.specs.declared.place.Place.{Place as AnyPlace};
ghost use Rattle.tds_wire.specs.declared.features.Features.{Features as AnyFeatures};
ghost use Rattle.tds_wire.specs.declared.shape.Shape.{Shape as AnyShape};

/// A row is what the layout of tds_wire passes as one, to the last byte; it wants more where that does, and
/// is refused where that refuses.
pub fn rows_are_those_of_the_layout()
    ensures { (most kind : ℕ) (features : AnyFeatures) (shapes : List AnyShape)
        (bytes : List ℕ) → begins_row (get_or bytes 0 0) ≡ true
        → token_at most features (record { kind = kind; columns = shapes }) bytes
        ≡ passed_as (record { kind = get_or bytes 0 0; columns = shapes })
        (placed_row shapes bytes) }
{}

/// The places divide a row: each value's own bytes stand behind its prefix, what closes it stands behind
/// them, the next value begins there, and behind the last one the row ends. Nothing is over or lacking.
pub fn places_divide_rows()
    ensures { (with_nulls : Bool) (nulls : List ℕ) (shapes : List AnyShape) (at : ℕ)
        (bytes : List ℕ) (found : List AnyPlace) (rest : List ℕ)
        → values_placed with_nulls nulls 0 shapes at bytes ≡ Got found rest
        → Divides with_nulls nulls 0 shapes at bytes found rest }
{}

/// What is found of a row's first bytes stays, whatever comes behind them: each place is the whole row's.
pub fn places_stay_as_bytes_come()
    ensures { (with_nulls : Bool) (nulls : List ℕ) (first : ℕ) (shapes : List AnyShape) (at : ℕ)
        (bytes more : List ℕ) (found : List AnyPlace) (rest : List ℕ)
        → values_placed with_nulls nulls first shapes at bytes ≡ Got found rest
        → values_placed with_nulls nulls first shapes at (bytes ++ more)
        ≡ Got found (rest ++ more) }
{}

/// A value in parts is over, byte by byte, where the layout of tds_wire ends it, and not before: in any cutting of its
/// bytes, and of the bytes of its row. Its own bytes are those of its parts.
pub fn parts_end_where_the_layout_ends_them()
    ensures ends { (bytes rest : List ℕ) → ((i : ℕ) → get_or bytes i 0 < 256)
        → value shapes.Parts bytes ≡ Got tt rest → EndsParts bytes rest }
    ensures lacks { (bytes : List ℕ) → ((i : ℕ) → get_or bytes i 0 < 256)
        → value shapes.Parts bytes ≡ Short → value_is_over (parts_after parts_begun bytes) ≡ false }
{}

/// The columns that a COLMETADATA describes are spelled as the layout of tds_wire has them, to its last byte, where a
/// walk has room for as many; more bytes are wanted where that wants more, and a type is unknown where it is there.
pub fn columns_are_those_of_the_layout()
    ensures { (most kind : ℕ) (features : AnyFeatures) (known : List AnyShape)
        (bytes : List ℕ) → ((i : ℕ) → get_or bytes i 0 < 256) → get_or bytes 0 0 ≡ 0x81
        → HasRoomFor most bytes
        → token_at most features (record { kind = kind; columns = known }) bytes
        ≡ described_as (record { kind = 0x81; columns = known }) (metadata_at features bytes) }
{}
