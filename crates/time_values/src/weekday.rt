ghost use Rattle.std.specs.Prelude.{◌≡◌, ◌==◌, ◌+◌, ◌%◌, ◌<◌};
ghost use Rattle.std.proofs.Common.{rules};
ghost use Rattle.std.specs.Cmp.Rules.{comparing};
ghost use Rattle.std.specs.Ordering.{on};
ghost use Rattle.time_values.specs.Names.{days_from_monday};

/// A day of the week.
#[derive(Clone, Copy, Debug)]
pub enum Weekday {
    Monday,
    Tuesday,
    Wednesday,
    Thursday,
    Friday,
    Saturday,
    Sunday,
}

impl Weekday {
    /// The weekday that many days after Monday: 0 for Monday to 6 for Sunday.
    #[inline]
    pub fn from_days_from_monday(days: u8) -> Weekday
        requires { days < 7 }
        ensures { days_from_monday result ≡ days }
    {
        match days {
            0 => Weekday::Monday,
            1 => Weekday::Tuesday,
            2 => Weekday::Wednesday,
            3 => Weekday::Thursday,
            4 => Weekday::Friday,
            5 => Weekday::Saturday,
            _ => Weekday::Sunday,
        }
    }

    /// How many days the weekday is after Monday: 0 for Monday to 6 for Sunday.
    #[inline]
    pub fn number_days_from_monday(self) -> u8
        ensures value { result ≡ days_from_monday self }
        ensures bound { result < 7 }
    {
        self as u8
    }

    /// How many days the weekday is after Sunday: 0 for Sunday to 6 for Saturday.
    #[inline]
    pub fn number_days_from_sunday(self) -> u8
        ensures value { result ≡ (days_from_monday self + 1) % 7 }
        ensures bound { result < 7 }
    {
        (self.number_days_from_monday() + 1) % 7
    }
}

impl PartialEq for Weekday {
    ghost eq = { on days_from_monday ◌==◌ };

    ghost laws = { Prim.search (comparing, rules) };

    #[inline]
    fn eq(&self, other: &Weekday) -> bool {
        self.number_days_from_monday() == other.number_days_from_monday()
    }
}

impl Eq for Weekday {
    ghost laws = { Prim.search (comparing, rules) };
}
