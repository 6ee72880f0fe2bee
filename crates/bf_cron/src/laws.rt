//! What the reading of a text means, in the form as it is written. These functions do nothing: their contracts are
//! the laws, over the definitions alone.
ghost use Rattle.std.specs.Prelude.{◌≡◌, ◌↔◌, ◌≤ℤ◌, ℕ, ℤ, List, Some, Ok, pos, true};
ghost use Rattle.jiff.specs.Types.{DateTime};
ghost use Rattle.jiff.specs.Words.{IsYear, is_leap_year};
ghost use Rattle.bf_cron.specs.Cron.{Schedule, IsRead, item_of, schedule_of, spec_matches};
ghost use Rattle.bf_cron.specs.LeapYears.{FiresIn};
ghost use Rattle.bf_cron.specs.Minutes.{IsMinute};
ghost use Rattle.bf_cron.specs.declared.spec.CronSpec.{CronSpec};
ghost use Rattle.bf_cron.specs.Grammar.{IsItemText, IsScheduleText};
ghost use Rattle.bf_cron.specs.declared.field.Field.{Field};
ghost use Rattle.bf_cron.specs.declared.item.Item.{Item};

/// A law: a text is read as an item exactly where it is written as that item.
pub fn items_are_read_as_written()
    ensures { (f : Field) (text : List ℕ) (i : Item) → (item_of f text ≡ Some i)
        ↔ IsItemText f text i }
{}

/// A law: a text is read as a schedule exactly where it is written as that schedule.
pub fn schedules_are_read_as_written()
    ensures { (text : List ℕ) (s : Schedule) → (schedule_of text ≡ Some s) ↔ IsScheduleText text s }
{}

/// A law: a schedule that a text says, and that has a civil minute, has one in each leap year from 1972 on.
pub fn fires_in_each_leap_year()
    ensures { (text : List ℕ) (spec : CronSpec) → IsRead (schedule_of text) (Ok spec) →
        (minute : ℕ) (at : DateTime) → IsMinute minute at → spec_matches spec at ≡ true →
        (year : ℤ) → IsYear year → pos 1_972 ≤ℤ year → is_leap_year year ≡ true
        → FiresIn spec year }
{}
