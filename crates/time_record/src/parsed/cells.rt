//! Stores the options of a record in a mask and rows of cells.
//!
//! Bits 0 to 22 of the mask mark which of the 23 options are set, and bits 23 to 26 are the four flags. Cell i has the
//! value of option i: 0 to 15 are bytes, 16 to 18 shorts, 19 to 21 words, and 22 is the timestamp. The cell of an
//! option that isn't set contains 0. A month is stored as 1 to 12, a weekday as 0 for Monday to 6 for Sunday, and a
//! `bool` as 0 or 1.
ghost use Rattle.std.specs.Prelude.{◌≡◌, true, false, ◌≤◌, ◌<◌, ◌^◌, ◌&&◌, ℕ, IfSome};
ghost use Rattle.time_values.specs.Calendar.{greatest_year};
ghost use Rattle.time_record.specs.Record.{InRange, unix_timestamp_nanos_is};
ghost use Rattle.time_record.specs.Cells.{bit, InCell};
ghost use Rattle.time_record.specs.CellAnswers.{changed, holds, put_cell, put_flag, Reads};

use crate::Parsed;

// The index of each option: of its bit in the mask and of its cell. 0 to 15 are in `bytes`.
pub(super) const YEAR_LAST_TWO: usize = 0;

pub(super) const ISO_YEAR_LAST_TWO: usize = 1;

pub(super) const MONTH: usize = 2;

pub(super) const SUNDAY_WEEK_NUMBER: usize = 3;

pub(super) const MONDAY_WEEK_NUMBER: usize = 4;

pub(super) const ISO_WEEK_NUMBER: usize = 5;

pub(super) const WEEKDAY: usize = 6;

pub(super) const DAY: usize = 7;

pub(super) const HOUR_24: usize = 8;

pub(super) const HOUR_12: usize = 9;

pub(super) const HOUR_12_IS_PM: usize = 10;

pub(super) const MINUTE: usize = 11;

pub(super) const SECOND: usize = 12;

pub(super) const OFFSET_HOUR: usize = 13;

pub(super) const OFFSET_MINUTE: usize = 14;

pub(super) const OFFSET_SECOND: usize = 15;

// Options 16 to 18 have their cells in `shorts`.
pub(super) const YEAR_CENTURY: usize = 16;

pub(super) const ISO_YEAR_CENTURY: usize = 17;

pub(super) const ORDINAL: usize = 18;

// Options 19 to 21 have their cells in `words`.
pub(super) const YEAR: usize = 19;

pub(super) const ISO_YEAR: usize = 20;

pub(super) const SUBSECOND: usize = 21;

// The index of the timestamp's bit in the mask; its value is in `stamp`.
pub(super) const UNIX_TIMESTAMP_NANOS: usize = 22;

// The index of each flag's bit in the mask; a flag has no cell.
pub(super) const OFFSET_IS_NEGATIVE: usize = 23;

pub(super) const YEAR_CENTURY_IS_NEGATIVE: usize = 24;

pub(super) const ISO_YEAR_CENTURY_IS_NEGATIVE: usize = 25;

pub(super) const LEAP_SECOND_ALLOWED: usize = 26;

// Whether a bit of the mask is set. Bit 0 is the lowest.
#[inline]
fn is_set(mask: u32, index: usize) -> bool
    requires { index < 32 }
    ensures { result ≡ bit mask index }
{
    (mask >> index) & 1 == 1
}

// The mask with the bit at `index` set to 1. Bit 0 is the lowest.
#[inline]
#[tactic(auto, using(crate::proofs::CellLemmas::bit_below, crate::proofs::CellLemmas::bit_set))]
fn with_bit(mask: u32, index: usize) -> u32
    requires in_mask { index < 27 }
    requires before { mask < 2 ^ 27 }
    ensures bits { (i : ℕ) → bit result i ≡ changed (bit mask) index true i }
    ensures after { result < 2 ^ 27 }
{
    mask | 1 << index
}

// The mask with the bit at `index` set to 0. Bit 0 is the lowest.
#[inline]
#[tactic(auto, using(crate::proofs::CellLemmas::bit_cleared))]
fn without_bit(mask: u32, index: usize) -> u32
    requires in_mask { index < 27 }
    requires before { mask < 2 ^ 27 }
    ensures bits { (i : ℕ) → bit result i ≡ changed (bit mask) index false i }
    ensures after { result < 2 ^ 27 }
{
    mask & !(1 << index)
}

// The mask with the bit at `index` set to 1 if `on` is true, and else to 0. Bit 0 is the lowest.
#[inline]
fn with_flag(mask: u32, index: usize, on: bool) -> u32
    requires in_mask { index < 27 }
    requires before { mask < 2 ^ 27 }
    ensures bits { (i : ℕ) → bit result i ≡ changed (bit mask) index on i }
    ensures after { result < 2 ^ 27 }
{
    if on {
        with_bit(mask, index)
    } else {
        without_bit(mask, index)
    }
}

impl Parsed {
    // Whether all three options (or flags) with these indices are set, by one test of the mask.
    #[inline]
    pub(super) fn has(&self, first: usize, second: usize, third: usize) -> bool
        requires first { first < 27 }
        requires second { second < 27 }
        requires third { third < 27 }
        ensures { result ≡ (holds self.now first && (holds self.now second && holds self.now third)) }
    {
        let cells = with_bit(with_bit(with_bit(0, first), second), third);
        self.mask & cells == cells
    }

    // The stored value of the option with this index, 0 to 15, from `bytes`, or `None` if the option isn't set.
    #[inline]
    pub(super) fn byte(&self, index: usize) -> Option<i8>
        requires in_cells { index < 16 }
        ensures value { Reads index self.now result }
        ensures in_range { IfSome result (InCell greatest_year index) }
    {
        if is_set(self.mask, index) {
            Some(self.bytes[index])
        } else {
            None
        }
    }

    // Stores the value of the option with this index, 0 to 15, in `bytes`, and marks the option as set.
    #[inline]
    pub(super) fn put_byte(&mut self, index: usize, value: i8)
        requires in_cells { index < 16 }
        requires in_range { InCell greatest_year index value }
        ensures { self.new ≡ put_cell index value self.old }
    {
        self.mask = with_bit(self.mask, index);
        self.bytes[index] = value;
    }

    // The stored value of the option with this index, 16 to 18, from `shorts`, or `None` if the option isn't set.
    #[inline]
    pub(super) fn short(&self, index: usize) -> Option<i16>
        requires past { 16 ≤ index }
        requires in_cells { index < 19 }
        ensures value { Reads index self.now result }
        ensures in_range { IfSome result (InCell greatest_year index) }
    {
        if is_set(self.mask, index) {
            Some(self.shorts[index - 16])
        } else {
            None
        }
    }

    // Stores the value of the option with this index, 16 to 18, in `shorts`, and marks the option as set.
    #[inline]
    pub(super) fn put_short(&mut self, index: usize, value: i16)
        requires past { 16 ≤ index }
        requires in_cells { index < 19 }
        requires in_range { InCell greatest_year index value }
        ensures { self.new ≡ put_cell index value self.old }
    {
        self.mask = with_bit(self.mask, index);
        self.shorts[index - 16] = value;
    }

    // The stored value of the option with this index, 19 to 21, from `words`, or `None` if the option isn't set.
    #[inline]
    pub(super) fn word(&self, index: usize) -> Option<i32>
        requires past { 19 ≤ index }
        requires in_cells { index < 22 }
        ensures value { Reads index self.now result }
        ensures in_range { IfSome result (InCell greatest_year index) }
    {
        if is_set(self.mask, index) {
            Some(self.words[index - 19])
        } else {
            None
        }
    }

    // Stores the value of the option with this index, 19 to 21, in `words`, and marks the option as set.
    #[inline]
    pub(super) fn put_word(&mut self, index: usize, value: i32)
        requires past { 19 ≤ index }
        requires in_cells { index < 22 }
        requires in_range { InCell greatest_year index value }
        ensures { self.new ≡ put_cell index value self.old }
    {
        self.mask = with_bit(self.mask, index);
        self.words[index - 19] = value;
    }

    // The timestamp in nanoseconds since 1970-01-01T00:00:00Z, or `None` if it isn't set.
    #[inline]
    pub(super) fn stamp(&self) -> Option<i128>
        ensures value { result ≡ self.now.unix_timestamp_nanos }
        ensures in_range { IfSome result
            (λ v. InRange greatest_year (unix_timestamp_nanos_is v)) }
    {
        if is_set(self.mask, UNIX_TIMESTAMP_NANOS) {
            Some(self.stamp)
        } else {
            None
        }
    }

    // Stores a timestamp in nanoseconds since 1970-01-01T00:00:00Z, and marks it as set.
    #[inline]
    pub(super) fn put_stamp(&mut self, value: i128)
        requires { InRange greatest_year (unix_timestamp_nanos_is value) }
        ensures { self.new ≡ put_cell 22 value self.old }
    {
        self.mask = with_bit(self.mask, UNIX_TIMESTAMP_NANOS);
        self.stamp = value;
    }

    // Whether the flag or the option with this index is set.
    #[inline]
    pub(super) fn flag(&self, index: usize) -> bool
        requires in_mask { index < 27 }
        ensures { result ≡ holds self.now index }
    {
        is_set(self.mask, index)
    }

    // Sets the flag with this index, 23 to 26, if `on` is true, and else clears it.
    #[inline]
    pub(super) fn set_flag(&mut self, index: usize, on: bool)
        requires past { 23 ≤ index }
        requires in_mask { index < 27 }
        ensures { self.new ≡ put_flag index on self.old }
    {
        self.mask = with_flag(self.mask, index, on);
    }
}
