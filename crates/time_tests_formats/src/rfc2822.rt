//! Mail dates of RFC 2822: their places, zone names, blanks and comments, and the fast paths of these.

// Whole mail dates, their places without a check of ranges, and zone names.
mod mail_dates {
    use crate::paths::first_mail_difference;
    use time_readers::rfc2822::{Place, place_fault, read, zone_literal};
    use time_values::error::ParseFromDescription;

    // Day, hour, minute and second, then the offset's hours and minutes, and how many bytes remain.
    type Places = ((u8, u8, u8, Option<u8>), (i8, i8), usize);

    // The numbers at the places of the text, whose ranges aren't checked; `None` if a place doesn't have its form.
    fn places(text: &[u8]) -> Option<Places> {
        let found = read::<false>(text).ok()?;
        let numbers = found.1;
        let time = (numbers.day, numbers.hour, numbers.minute, numbers.second);
        Some((
            time,
            (numbers.offset_hour, numbers.offset_minute),
            found.0.len(),
        ))
    }

    #[test]
    fn mail_places_without_ranges(rt: HostRuntime) {
        let most = ((99, 99, 99, Some(99)), (-99, -99), 0);
        assert!(rt; places(b"99 Jan 2021 99:99:99 -9999") == Some(most));
        assert!(rt; places(b"1 Jan 1899 00:00 GMT") == None);
        assert!(rt; place_fault(Place::EndBlanks) == ParseFromDescription::InvalidLiteral);
    }

    // Each mail date has its moment, or its error, without a record and over an empty one.
    #[test]
    fn mail_dates(rt: HostRuntime) {
        let text = first_mail_difference();
        assert!(rt; text == None, "{text:?}");
    }

    // The hours of the zone name at the start of the text, and how many bytes remain after it; `None` without a name.
    fn zone(text: &[u8]) -> Option<(i8, usize)> {
        let found = zone_literal(text)?;
        Some((found.1, found.0.len()))
    }

    // A text, and the result of `zone`.
    static ZONES: [(&[u8], Option<(i8, usize)>); 20] = [
        (b"EST", Some((-5, 0))),
        (b"EDT", Some((-4, 0))),
        (b"CST", Some((-6, 0))),
        (b"CDT", Some((-5, 0))),
        (b"MST", Some((-7, 0))),
        (b"MDT", Some((-6, 0))),
        (b"PST", Some((-8, 0))),
        (b"PDT", Some((-7, 0))),
        (b"GMT", Some((0, 0))),
        (b"eDTx", Some((-4, 1))),
        // Names of one or two bytes.
        (b"uT", Some((0, 0))),
        (b"a", Some((0, 0))),
        (b"Zx", Some((0, 1))),
        (b"U0", Some((0, 1))),
        (b"", None),
        (b"J", None),
        (b"jx", None),
        (b"0", None),
        (b"UT ", None),
        (b"Z (x)", None),
    ];

    #[test]
    fn mail_zones(rt: HostRuntime) {
        for (text, expected) in &ZONES {
            assert!(rt; zone(text) == *expected, "{text:?}");
        }
    }
}

// The blanks and comments of mail dates.
mod mail_blanks {
    use self::Reader::{Cfws, Colon, Fws, OptionalCfws};
    use time_readers::ParsedItem;
    use time_readers::rfc2822::{cfws, fws, opt_cfws, opt_cfws_colon_opt_cfws};

    /// The reader of a part.
    #[derive(Clone, Copy)]
    pub enum Reader {
        /// Blanks.
        Fws,
        /// Blanks and comments.
        Cfws,
        /// Blanks and comments, or nothing.
        OptionalCfws,
        /// A colon, with optional blanks and comments around it.
        Colon,
    }

    // The rest after the part at the start of the text; `None` if the reader rejects it.
    fn rest(reader: Reader, text: &[u8]) -> Option<ParsedItem<'_, ()>> {
        match reader {
            Fws => fws(text),
            Cfws => cfws(text),
            OptionalCfws => Some(opt_cfws(text)),
            Colon => opt_cfws_colon_opt_cfws(text),
        }
    }

    /// How many bytes remain after the part at the start of the text; `None` if the reader rejects it.
    pub fn remaining_len(reader: Reader, text: &[u8]) -> Option<usize> {
        match rest(reader, text) {
            Some(found) => Some(found.0.len()),
            None => None,
        }
    }

    // A reader, a text, and how many bytes remain after the part; `None` if it is rejected.
    static TEXTS: [(Reader, &[u8], Option<usize>); 43] = [
        (Fws, b" \t x", Some(1)),
        (Fws, b"\r\n x", Some(1)),
        (Fws, b"\r\n \r\n x", Some(4)),
        (Fws, b" \r\n x", Some(1)),
        (Fws, b" \r\n \r\n\tx", Some(1)),
        (Fws, b" \r\nx", None),
        (Fws, b" \r\n \r\nx", None),
        (Fws, b" \r\n", None),
        (Fws, b"\r\nx", None),
        (Fws, b" \rx", Some(2)),
        (Fws, b" \nx", Some(2)),
        (Fws, b"\r x", None),
        (Fws, b"\n x", None),
        (Fws, b"", None),
        (Cfws, b"(a(b\\)c))x", Some(1)),
        (Cfws, b" (a) \r\n (b)x", Some(1)),
        (Cfws, b"( a \r\n b )x", Some(1)),
        (Cfws, b"()x", Some(1)),
        (Cfws, b"(\\\x01\\\x7f\x7f!)x", Some(1)),
        (Cfws, b" \r\nx", None),
        (Cfws, b"x", None),
        (Cfws, b" (a", Some(2)),
        // Comments nested 31 and 32 deep, and 1000 deep without an end.
        (
            Cfws,
            b"((((((((((((((((((((((((((((((()))))))))))))))))))))))))))))))",
            Some(0),
        ),
        (
            Cfws,
            b"(((((((((((((((((((((((((((((((())))))))))))))))))))))))))))))))",
            None,
        ),
        (Cfws, &[b'('; 1000], None),
        // No comments.
        (Cfws, b"(a\r\n)", None),
        (Cfws, b"(a \r\n)", None),
        (Cfws, b"(\r)", None),
        (Cfws, b"(\n)", None),
        (Cfws, b"(\x00)", None),
        (Cfws, b"(\x80)", None),
        (Cfws, b"(\\\x00)", None),
        (Cfws, b"(\\\n)", None),
        (Cfws, b"(\\\r)", None),
        (Cfws, b"(\\\x80)", None),
        (Cfws, b"(\\", None),
        (Cfws, b"(a", None),
        (Cfws, b")", None),
        (OptionalCfws, b"x", Some(1)),
        (OptionalCfws, b" (a)x", Some(1)),
        (Colon, b" (a): (b)x", Some(1)),
        (Colon, b":x", Some(1)),
        (Colon, b" (a)x", None),
    ];

    #[test]
    fn mail_blanks(rt: HostRuntime) {
        for (reader, text, expected) in &TEXTS {
            assert!(rt; remaining_len(*reader, text) == *expected, "{text:?}");
        }
    }
}

// Mail dates with each byte at each place. A fast path parses most of these places.
mod mail_fronts {
    use time_parsing::{Parsable, Rfc2822};
    use time_record::Parsed;
    use time_values::OffsetDateTime;
    use time_values::error::Parse;

    // A mail date; that date with a comment after its day, and after its second; and the index at which its day ends.
    type Row = (&'static [u8], &'static [u8], &'static [u8], usize);

    static TEXTS: [Row; 4] = [
        (
            b"Sat, 02 Jan 2021 03:04:05 +0607",
            b"Sat, 02(x) Jan 2021 03:04:05 +0607",
            b"Sat, 02 Jan 2021 03:04:05(x) +0607",
            7,
        ),
        (
            b"Mon, 31 Dec 1900 23:59:59 -2559",
            b"Mon, 31(x) Dec 1900 23:59:59 -2559",
            b"Mon, 31 Dec 1900 23:59:59(x) -2559",
            7,
        ),
        (
            b"31 May 9999 00:00:60 GMT",
            b"31(x) May 9999 00:00:60 GMT",
            b"31 May 9999 00:00:60(x) GMT",
            2,
        ),
        (
            b"2 Sep 2020 23:59:60 +0000",
            b"2(x) Sep 2020 23:59:60 +0000",
            b"2 Sep 2020 23:59:60(x) +0000",
            1,
        ),
    ];

    // The length of the comment `(x)`.
    const COMMENT: usize = 3;

    // The distance from the end of the day to the end of the second, in bytes.
    const TO_SECOND: usize = 18;

    // The result of a text with that byte at a place, on the direct path and over an empty record.
    type Moments = (Result<OffsetDateTime, Parse>, Result<OffsetDateTime, Parse>);

    // The results of the text with that byte at the index `place`; `None` if the text has no such index, or more than
    // 34 bytes.
    fn moments(text: &[u8], place: usize, byte: u8) -> Option<Moments> {
        let mut changed = [b' '; 34];
        let changed = changed.get_mut(..text.len())?;
        changed.copy_from_slice(text);
        *changed.get_mut(place)? = byte;
        Some((
            Rfc2822.parse_offset_date_time(changed, None),
            Rfc2822.parse_offset_date_time(changed, Some(Parsed::new())),
        ))
    }

    // The text with a comment whose places are parsed without the fast path up to that place, and the place's index in
    // it.
    fn commented(row: &Row, place: usize) -> (&'static [u8], usize) {
        let (_, behind_day, behind_second, day_end) = *row;
        if place < day_end {
            (behind_day, place)
        } else if place < day_end.saturating_add(TO_SECOND) {
            (behind_second, place)
        } else {
            (behind_day, place.saturating_add(COMMENT))
        }
    }

    // Whether both texts have equal results with that byte at their places. A carriage return is always an error.
    fn is_right(row: &Row, place: usize, byte: u8) -> bool {
        let Some(answers) = moments(row.0, place, byte) else {
            return false;
        };
        let (text, same_place) = commented(row, place);
        let is_refused = answers.0.is_err() && answers.1.is_err();
        (byte != b'\r' || is_refused) && moments(text, same_place, byte) == Some(answers)
    }

    #[test]
    fn mail_fronts(rt: HostRuntime) {
        for row in &TEXTS {
            for place in 0..row.0.len() {
                for byte in 0..=u8::MAX {
                    assert!(rt; is_right(row, place, byte), "{:?} {place} {byte}", row.0);
                }
            }
        }
    }
}

// Mail dates by the fast paths of their blanks, and blanks before each byte.
mod short_cuts {
    use super::mail_blanks::Reader::{self, Cfws, Colon, Fws, OptionalCfws};
    use super::mail_blanks::remaining_len;
    use crate::paths::first_mail_difference;

    // Each reader.
    static READERS: [Reader; 4] = [Fws, Cfws, OptionalCfws, Colon];

    // Whether the reader parses the blank, and the byte between it and an `x` only if that is a blank too.
    fn parses_blanks(reader: Reader, blank: u8, byte: u8) -> bool {
        let text = [b':', blank, byte, b'x'];
        let rest = if byte == b' ' || byte == b'\t' { 1 } else { 2 };
        remaining_len(reader, behind_colon(reader, &text)) == Some(rest)
    }

    // The text, without its colon unless the reader is that of a colon.
    fn behind_colon(reader: Reader, text: &[u8; 4]) -> &[u8] {
        match reader {
            Colon => text,
            _ => &text[1..],
        }
    }

    // Whether the reader parses no blank at a byte that isn't one, with a blank after it. `Fws` and `Cfws` reject the
    // text, `OptionalCfws` parses nothing, and `Colon` the colon alone.
    fn parses_no_blank(reader: Reader, byte: u8) -> bool {
        let text = [b':', byte, b' ', b'x'];
        let expected = match reader {
            Fws | Cfws => None,
            OptionalCfws | Colon => Some(3),
        };
        remaining_len(reader, behind_colon(reader, &text)) == expected
    }

    // Texts that start with one blank or none, and how many bytes remain after it: by `Fws`, and by `Cfws`.
    static ONE_BLANK: [(&[u8], Option<usize>, Option<usize>); 20] = [
        (b" !", Some(1), Some(1)),
        (b"\t!", Some(1), Some(1)),
        (b"\tJan", Some(3), Some(3)),
        (b" )", Some(1), Some(1)),
        (b"\t)", Some(1), Some(1)),
        (b" \xff", Some(1), Some(1)),
        (b"\t\xff", Some(1), Some(1)),
        // Comments.
        (b" (x)y", Some(4), Some(1)),
        (b"\t(x)y", Some(4), Some(1)),
        (b"\t(", Some(1), Some(1)),
        // Bytes below a space.
        (b" \0", Some(1), Some(1)),
        (b"\t\x08", Some(1), Some(1)),
        (b" \x0bx", Some(2), Some(2)),
        (b"\t\x1f", Some(1), Some(1)),
        (b" \nx", Some(2), Some(2)),
        (b"\t\nx", Some(2), Some(2)),
        // A carriage return isn't a blank, and isn't parsed after one.
        (b"\rx", None, None),
        (b"\r x", None, None),
        (b" \rx", Some(2), Some(2)),
        (b"\t\r\nx", None, None),
    ];

    #[test]
    fn one_blank_before_each_kind_of_byte(rt: HostRuntime) {
        for (text, fws, cfws) in &ONE_BLANK {
            assert!(rt;
                remaining_len(Fws, text) == *fws && remaining_len(Cfws, text) == *cfws,
                "{text:?}"
            );
        }
    }

    #[test]
    fn short_cuts(rt: HostRuntime) {
        let text = first_mail_difference();
        assert!(rt; text == None, "{text:?}");
        for reader in &READERS {
            for byte in 0..=u8::MAX {
                assert!(rt;
                    parses_blanks(*reader, b' ', byte) && parses_blanks(*reader, b'\t', byte),
                    "{byte}"
                );
                let is_blank = byte == b' ' || byte == b'\t';
                assert!(rt; is_blank || parses_no_blank(*reader, byte), "{byte}");
            }
        }
    }
}
