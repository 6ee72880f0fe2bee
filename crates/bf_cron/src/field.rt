//! The five fields.
ghost use Rattle.std.specs.Prelude.{◌≡◌};
ghost use Rattle.bf_cron.specs.Cron.{least_of, greatest_of};

/// One of the five fields of a schedule (crontab(5)).
#[derive(Clone, Copy, Debug, PartialEq, Eq)]
pub enum Field {
    Minute,
    Hour,
    /// The day of the month.
    Day,
    Month,
    /// From 0 to 7, where 0 and 7 are Sunday.
    Weekday,
}

impl Field {
    /// Gives the least number that the field may have: 1 for days and months, else 0.
    pub fn least(self) -> u8
        ensures { result ≡ least_of self }
    {
        match self {
            Field::Day | Field::Month => 1,
            Field::Minute | Field::Hour | Field::Weekday => 0,
        }
    }

    /// Gives the greatest number that the field may have; for weekdays that is 7, a second Sunday.
    pub fn greatest(self) -> u8
        ensures { result ≡ greatest_of self }
    {
        match self {
            Field::Minute => 59,
            Field::Hour => 23,
            Field::Day => 31,
            Field::Month => 12,
            Field::Weekday => 7,
        }
    }
}
