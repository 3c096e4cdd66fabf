//! Laws of the definitions in this crate's contracts: each function does nothing, and its contract is the law.
ghost use Rattle.time_digits.specs.Digits.{OneDigitRun, OnePaddedRun};

/// For given least and greatest lengths, at most one prefix of an input parses as a run of digits, with one value.
pub fn law_one_digit_run()
    ensures { OneDigitRun }
{}

/// For a given padding and given lengths, at most one prefix of an input parses as a padded number, with one value.
pub fn law_one_padded_run()
    ensures { OnePaddedRun }
{}
