//! The components that were parsed of a date and time.
ghost use Rattle.std.specs.Prelude.{◌≡◌, true, false};
ghost use Rattle.time_record.specs.Record.{empty};

mod builders;
mod cells;
pub(crate) mod component;
pub(crate) mod fast;
mod getters;
mod parse;
mod setters;
mod try_from;

use cells::{
    ISO_YEAR_CENTURY_IS_NEGATIVE, LEAP_SECOND_ALLOWED, OFFSET_IS_NEGATIVE, OFFSET_MINUTE,
    OFFSET_SECOND, YEAR_CENTURY_IS_NEGATIVE,
};
use std::fmt;
use std::marker::Model;

/// The known components of a date and time.
///
/// Parsing stores components in it, and `TryFrom` converts it to a value. Each component also has a getter, a setter
/// `set_..` and a builder `with_..`. If the value is out of range, a setter returns `None` and changes nothing, and a
/// builder returns `None`. Components are stored independently: a conversion checks only those that it uses.
#[derive(Clone, Copy)]
pub struct Parsed {
    // One bit for each component, 1 if it is set, and one for each flag.
    mask: u32,
    // The values of the components, in one array for each size, and the timestamp; 0 for a component that isn't set.
    bytes: [i8; 16],
    shorts: [i16; 3],
    words: [i32; 3],
    stamp: i128,
}

impl Model for Parsed {
    ghost use Rattle.time_record.specs.Record.{Record};
    ghost use Rattle.time_values.specs.Calendar.{greatest_year};

    ghost Value = { Record };

    ghost use Rattle.time_record.specs.Inverse.{record_of, fields_of, fields_back, AreSound};

    ghost view = { record_of };

    ghost invariant = { AreSound greatest_year };

    ghost inverse = { fields_of };

    ghost inverse_ok = { fields_back greatest_year };
}

impl Default for Parsed {
    ghost is_default = { λ r. r ≡ empty };

    /// An empty record, as from `Parsed::new`.
    #[inline]
    fn default() -> Parsed {
        Parsed::new()
    }
}

impl Parsed {
    /// The empty record: no component is known, and no flag is set.
    #[inline]
    #[tactic(auto, unfolding(crate::specs::Inverse::record_of))]
    pub fn new() -> Parsed
        ensures { result ≡ empty }
    {
        Parsed {
            mask: 0,
            bytes: [0; 16],
            shorts: [0; 3],
            words: [0; 3],
            stamp: 0,
        }
    }

    /// Allows a second of 60 as a leap second. If no timestamp is set, conversions to `OffsetDateTime`, `UtcDateTime`
    /// and `Timestamp` then replace it by the last nanosecond before it, or fail if that doesn't end a month in UTC.
    /// Conversions to `Time` and `PlainDateTime` always reject it. Setting and parsing a 60 needs no permission.
    #[inline]
    pub fn allow_leap_second(&mut self)
        ensures { self.new ≡ record self.old { leap_second_allowed = true } }
    {
        self.set_flag(LEAP_SECOND_ALLOWED, true);
    }

    // Whether a second of 60 may be a leap second: whether `allow_leap_second` was called.
    #[inline]
    fn is_leap_second_allowed(&self) -> bool
        ensures { result ≡ self.now.leap_second_allowed }
    {
        self.flag(LEAP_SECOND_ALLOWED)
    }

    /// Clears the flag of a negative offset. Parsing an `OffsetHour` sets it if the hour has a minus, and else clears
    /// it; setters don't change it. While it is set, `offset_minute_signed` and `offset_second_signed` return the
    /// stored numbers negated. This call leaves the stored components unchanged.
    #[inline]
    pub fn forget_offset_sign(&mut self)
        ensures { self.new ≡ record self.old { offset_is_negative = false } }
    {
        self.set_flag(OFFSET_IS_NEGATIVE, false);
    }
}

// Prints the components, then the flags. The offset's minutes and seconds are the stored numbers, not negated by the
// flag of a negative offset.
impl fmt::Debug for Parsed {
    fn fmt<W: fmt::Write>(&self, f: &mut fmt::Formatter<W>) -> fmt::Result {
        f.debug_struct("Parsed")
            .field("year", &self.year())
            .field("year_century", &self.year_century())
            .field("year_last_two", &self.year_last_two())
            .field("iso_year", &self.iso_year())
            .field("iso_year_century", &self.iso_year_century())
            .field("iso_year_last_two", &self.iso_year_last_two())
            .field("month", &self.month())
            .field("sunday_week_number", &self.sunday_week_number())
            .field("monday_week_number", &self.monday_week_number())
            .field("iso_week_number", &self.iso_week_number())
            .field("weekday", &self.weekday())
            .field("ordinal", &self.ordinal())
            .field("day", &self.day())
            .field("hour_24", &self.hour_24())
            .field("hour_12", &self.hour_12())
            .field("hour_12_is_pm", &self.hour_12_is_pm())
            .field("minute", &self.minute())
            .field("second", &self.second())
            .field("subsecond", &self.subsecond())
            .field("offset_hour", &self.offset_hour())
            .field("offset_minute", &self.byte(OFFSET_MINUTE))
            .field("offset_second", &self.byte(OFFSET_SECOND))
            .field("unix_timestamp_nanos", &self.unix_timestamp_nanos())
            .field("offset_is_negative", &self.flag(OFFSET_IS_NEGATIVE))
            .field(
                "year_century_is_negative",
                &self.flag(YEAR_CENTURY_IS_NEGATIVE),
            )
            .field(
                "iso_year_century_is_negative",
                &self.flag(ISO_YEAR_CENTURY_IS_NEGATIVE),
            )
            .field("leap_second_allowed", &self.flag(LEAP_SECOND_ALLOWED))
            .finish()
    }
}

#[cfg(test)]
mod tests {
    //! The representation of a record: each option has its own bit and cell, in 64 bytes.
    use crate::Parsed;
    use std::mem::size_of;
    use std::num::NonZero;
    use time_values::{Month, Weekday};

    #[test]
    fn each_bit(rt: HostRuntime) {
        for index in 0..23 {
            let Some((parsed, value)) = with_option(index) else {
                panic!(rt; "option {index} is refused");
            };
            assert_eq!(rt; parsed.mask, 1 << index, "the bit of option {index}");
            for cell in 0..23 {
                let expected = if cell == index { value } else { 0 };
                assert_eq!(rt;
                    cell_of(&parsed, cell),
                    expected,
                    "cell {cell} of option {index}"
                );
            }
        }
    }

    #[test]
    fn record_of_64_bytes(rt: HostRuntime) {
        assert_eq!(rt; size_of::<Parsed>(), 64);
    }

    // A record with only option `index` set, and the value of its cell, which is not 0. `None` for an index above 22.
    fn with_option(index: usize) -> Option<(Parsed, i128)> {
        let parsed = Parsed::new();
        let week = NonZero::<u8>::new(53)?;
        let ordinal = NonZero::<u16>::new(366)?;
        let day = NonZero::<u8>::new(31)?;
        let hour = NonZero::<u8>::new(12)?;
        Some(match index {
            0 => (parsed.with_year_last_two(99)?, 99),
            1 => (parsed.with_iso_year_last_two(98)?, 98),
            2 => (parsed.with_month(Month::December)?, 12),
            3 => (parsed.with_sunday_week_number(52)?, 52),
            4 => (parsed.with_monday_week_number(51)?, 51),
            5 => (parsed.with_iso_week_number(week)?, 53),
            6 => (parsed.with_weekday(Weekday::Sunday)?, 6),
            7 => (parsed.with_day(day)?, 31),
            8 => (parsed.with_hour_24(23)?, 23),
            9 => (parsed.with_hour_12(hour)?, 12),
            10 => (parsed.with_hour_12_is_pm(true)?, 1),
            11 => (parsed.with_minute(59)?, 59),
            12 => (parsed.with_second(60)?, 60),
            13 => (parsed.with_offset_hour(-25)?, -25),
            14 => (parsed.with_offset_minute_signed(-59)?, -59),
            15 => (parsed.with_offset_second_signed(-58)?, -58),
            16 => (parsed.with_year_century(9999, false)?, 9999),
            17 => (parsed.with_iso_year_century(9998, false)?, 9998),
            18 => (parsed.with_ordinal(ordinal)?, 366),
            19 => (parsed.with_year(-999_999)?, -999_999),
            20 => (parsed.with_iso_year(999_999)?, 999_999),
            21 => (parsed.with_subsecond(999_999_999)?, 999_999_999),
            22 => (parsed.with_unix_timestamp_nanos(-1)?, -1),
            _ => return None,
        })
    }

    // The value of the cell of option `index`, whichever field has it.
    fn cell_of(parsed: &Parsed, index: usize) -> i128 {
        if index < 16 {
            parsed.bytes[index] as i128
        } else if index < 19 {
            parsed.shorts[index - 16] as i128
        } else if index < 22 {
            parsed.words[index - 19] as i128
        } else {
            parsed.stamp
        }
    }
}
