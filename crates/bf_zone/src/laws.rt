//! What the texts of zones mean. These functions do nothing: their contracts are the laws, over the definitions
//! alone.
ghost use Rattle.std.specs.Prelude.{◌≡◌, ◌↔◌, List, Option, Some, ℕ, ℤ};
ghost use Rattle.bf_zone.specs.Offsets.{offset_of, IsOffsetText};
ghost use Rattle.jiff.specs.Types.{DateTime, TimeZone};
ghost use Rattle.jiff.specs.Words.{picked_instant};
ghost use Rattle.bf_zone.specs.Zones.{Asked, IsZone};

/// A law: a text is read as an offset exactly where it is written as that offset.
pub fn offsets_are_read_as_written()
    ensures { (text : List ℕ) (n : ℤ) → (offset_of text ≡ Some n) ↔ IsOffsetText text n }
{}

/// A law: one text and one file mean one zone. Of any two that they allow, the instant of every civil time is
/// the same.
pub fn zone_of_text_is_unique()
    ensures { (a : Asked) (file : Option (List ℕ)) (x y : TimeZone) → IsZone a file x
        → IsZone a file y →
        (at : DateTime) → picked_instant x at ≡ picked_instant y at }
{}
