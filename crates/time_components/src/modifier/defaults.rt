//! Defaults of modifiers that a description doesn't name, if one of them is true by default. Other defaults are
//! derived.
ghost use Rattle.std.specs.Prelude.{◌≡◌, true};

use crate::modifier::{
    MonthLong, MonthShort, Period, WeekdayLong, WeekdayMonday, WeekdayShort, WeekdaySunday,
};

impl Default for MonthShort {
    ghost is_default = { λ m. m.case_sensitive ≡ true };

    fn default() -> MonthShort {
        MonthShort {
            case_sensitive: true,
        }
    }
}

impl Default for MonthLong {
    ghost is_default = { λ m. m.case_sensitive ≡ true };

    fn default() -> MonthLong {
        MonthLong {
            case_sensitive: true,
        }
    }
}

impl Default for WeekdayShort {
    ghost is_default = { λ m. m.case_sensitive ≡ true };

    fn default() -> WeekdayShort {
        WeekdayShort {
            case_sensitive: true,
        }
    }
}

impl Default for WeekdayLong {
    ghost is_default = { λ m. m.case_sensitive ≡ true };

    fn default() -> WeekdayLong {
        WeekdayLong {
            case_sensitive: true,
        }
    }
}

impl Default for WeekdaySunday {
    ghost is_default = { λ m. m.one_indexed ≡ true };

    fn default() -> WeekdaySunday {
        WeekdaySunday { one_indexed: true }
    }
}

impl Default for WeekdayMonday {
    ghost is_default = { λ m. m.one_indexed ≡ true };

    fn default() -> WeekdayMonday {
        WeekdayMonday { one_indexed: true }
    }
}

impl Default for Period {
    ghost is_default = { λ m. (m.is_uppercase ≡ true) × (m.case_sensitive ≡ true) };

    fn default() -> Period {
        Period {
            is_uppercase: true,
            case_sensitive: true,
        }
    }
}
