//! Time zones: their names, local times, and the example of their page.
ghost use Rattle.std.specs.Prelude.{IfSome};
ghost use Rattle.time_zones.specs.Zones.{HasLocalTime};

mod suffixes;

use std::alloc::Global;
use std::test::Fail;
use time_values::{Date, Month, OffsetDateTime, PlainDateTime, Time};
use time_zones::{
    NamedZone, NotOne, ReadFault, TimeZone, ZoneFiles, assume_zone, find_zone, find_zone_in,
};

// A year, a month, a day, an hour and a minute.
type Minute = (i32, Month, u8, u8, u8);

// The rules of zones in 2021, as in the last line of the database's files.
const BERLIN: &str = "CET-1CEST,M3.5.0,M10.5.0/3";

const NEW_YORK: &str = "EST5EDT,M3.2.0,M11.1.0";

// In winter Dublin is an hour behind its standard time.
const DUBLIN: &str = "IST-1GMT0,M10.5.0,M3.5.0/1";

const LORD_HOWE: &str = "<+1030>-10:30<+11>-11,M10.1.0,M4.1.0";

// The date and time of these numbers.
fn clock((year, month, day, hour, minute): Minute) -> Option<PlainDateTime> {
    let date = Date::from_calendar_date(year, month, day).ok()?;
    let time = Time::from_hms_nano(hour, minute, 0, 0).ok()?;
    Some(PlainDateTime::new(date, time))
}

// The moment of these numbers in UTC.
fn utc(minute: Minute) -> Option<OffsetDateTime> {
    Some(clock(minute)?.assume_utc())
}

// The result for a local time: offsets in seconds.
#[derive(Clone, Copy, Debug, PartialEq, Eq)]
enum Answer {
    At(i32),
    Gap,
    Fold(i32, i32),
    OutsideZoneRange,
}

fn answer_of(zone: &TimeZone<'_>, minute: Minute) -> Option<Answer> {
    Some(match assume_zone(clock(minute)?, zone) {
        Ok(moment) => Answer::At(moment.offset().whole_seconds()),
        Err(NotOne::Gap) => Answer::Gap,
        Err(NotOne::Fold { earlier, later }) => Answer::Fold(
            earlier.offset().whole_seconds(),
            later.offset().whole_seconds(),
        ),
        Err(NotOne::OutsideZoneRange) => Answer::OutsideZoneRange,
    })
}

// A folder with one zone, a folder, an unreadable file, a file that isn't a zone, and one that runs out of memory.
#[derive(Drop)]
struct Shelf {
    alloc: Global,
}

// Pyongyang changed from +09:00 to +08:30 at 2015-08-14T15:00:00Z: 1439564400, which is 0x55ce0270. 9:00 are 32400
// seconds, 0x7e90, and 8:30 are 30600, 0x7788.
static PYONGYANG: [&[u8]; 6] = [
    b"TZif2\0\0\0\0\0\0\0\0\0\0\0\0\0\0\0",
    b"\0\0\0\0\0\0\0\0\0\0\0\0\0\0\0\0\0\0\0\x01\0\0\0\x01\0\0\0\0\0\0\0",
    b"TZif2\0\0\0\0\0\0\0\0\0\0\0\0\0\0\0",
    b"\0\0\0\0\0\0\0\0\0\0\0\0\0\0\0\x01\0\0\0\x02\0\0\0\x04",
    b"\0\0\0\0\x55\xce\x02\x70\x01\0\0\x7e\x90\0\0\0\0\x77\x88\0\0KST\0",
    b"\nKST-8:30\n",
];

// The parts, one after another.
fn joined(alloc: Global, parts: &[&[u8]]) -> Result<Vec<u8>, ReadFault> {
    let mut bytes = Vec::new(alloc);
    for part in parts {
        if bytes.extend_from_slice(part).is_err() {
            return Err(ReadFault::OutOfMemory);
        }
    }
    Ok(bytes)
}

impl ZoneFiles for Shelf {
    ghost gives = { λ shelf path given. Unit {0} };

    fn read(&self, path: &str) -> Result<Vec<u8>, ReadFault> {
        match path {
            "/zones/Asia/Pyongyang" => joined(self.alloc, &PYONGYANG),
            "/zones/Asia" => Err(ReadFault::Folder),
            "/zones/Locked" => Err(ReadFault::Unreadable(std::io::ErrorKind::PermissionDenied)),
            "/zones/tab" => joined(self.alloc, &[b"# a table"]),
            "/zones/Vast" => Err(ReadFault::OutOfMemory),
            _ => Err(ReadFault::Missing),
        }
    }
}

// The zone that this value of `TZ` selects.
fn by_setting(alloc: Global, setting: &str) -> Option<NamedZone> {
    find_zone_in(alloc, &Shelf { alloc }, "/zones", Some(setting), "local").ok()
}

/// The first moment with the local time in the zone.
fn first_moment(clock: PlainDateTime, zone: &TimeZone<'_>) -> Option<OffsetDateTime>
    ensures { IfSome result (HasLocalTime zone.now clock) }
{
    match assume_zone(clock, zone) {
        Ok(moment) => Some(moment),
        Err(NotOne::Fold { earlier, .. }) => Some(earlier),
        Err(NotOne::Gap | NotOne::OutsideZoneRange) => None,
    }
}

#[test]
fn first_moments(rt: HostRuntime) -> Result<(), Fail> {
    let zone = find_zone(&rt, "UTC")?;
    let date = Date::from_calendar_date(2021, Month::March, 28)?;
    let clock = PlainDateTime::new(date, Time::from_hms_nano(2, 30, 0, 0)?);
    let first = first_moment(clock, &zone.time_zone());
    assert!(rt; first == Some(clock.assume_utc()));
    Ok(())
}

// The moments with a local time.
mod clocks {
    use super::{Answer, BERLIN, DUBLIN, LORD_HOWE, Minute, NEW_YORK, answer_of, by_setting};
    use time_values::Month::{April, August, December, July, March, November, October};

    const HOUR: i32 = 3600;

    static CLOCKS: [(&str, Minute, Answer); 22] = [
        // 12:00 - 1:00 = 11:00Z, and 12:00 - 2:00 = 10:00Z.
        (BERLIN, (2021, December, 1, 12, 0), Answer::At(HOUR)),
        (BERLIN, (2021, July, 1, 12, 0), Answer::At(2 * HOUR)),
        // At 01:00Z on 28 March local time moves from 02:00 to 03:00.
        (BERLIN, (2021, March, 28, 1, 59), Answer::At(HOUR)),
        (BERLIN, (2021, March, 28, 2, 0), Answer::Gap),
        (BERLIN, (2021, March, 28, 2, 30), Answer::Gap),
        (BERLIN, (2021, March, 28, 3, 0), Answer::At(2 * HOUR)),
        // At 01:00Z on 31 October it moves from 03:00 to 02:00: 02:30 is 00:30Z and 01:30Z.
        (BERLIN, (2021, October, 31, 1, 59), Answer::At(2 * HOUR)),
        (
            BERLIN,
            (2021, October, 31, 2, 30),
            Answer::Fold(2 * HOUR, HOUR),
        ),
        (BERLIN, (2021, October, 31, 3, 0), Answer::At(HOUR)),
        // 02:30 would be 07:30Z or 06:30Z, and the change is at 07:00Z.
        (NEW_YORK, (2021, March, 14, 2, 30), Answer::Gap),
        // 01:30 + 4:00 = 05:30Z, and 01:30 + 5:00 = 06:30Z.
        (
            NEW_YORK,
            (2021, November, 7, 1, 30),
            Answer::Fold(-4 * HOUR, -5 * HOUR),
        ),
        (DUBLIN, (2021, March, 28, 1, 30), Answer::Gap),
        (DUBLIN, (2021, October, 31, 1, 30), Answer::Fold(HOUR, 0)),
        // Half an hour: 01:45 - 11:00 = 14:45Z of the day before, and 01:45 - 10:30 = 15:15Z.
        (
            LORD_HOWE,
            (2021, April, 4, 1, 45),
            Answer::Fold(11 * HOUR, 21 * HOUR / 2),
        ),
        (LORD_HOWE, (2021, October, 3, 2, 15), Answer::Gap),
        // A table with a change back by half an hour: 23:45 - 9:00 = 14:45Z, and 23:45 - 8:30 = 15:15Z.
        (
            "Asia/Pyongyang",
            (2015, August, 14, 23, 45),
            Answer::Fold(9 * HOUR, 17 * HOUR / 2),
        ),
        (
            "Asia/Pyongyang",
            (2015, August, 14, 12, 0),
            Answer::At(9 * HOUR),
        ),
        (
            "Asia/Pyongyang",
            (2021, July, 1, 12, 0),
            Answer::At(17 * HOUR / 2),
        ),
        // This rule's daylight saving time ends an hour before it starts, at 01:00Z and 02:00Z of 1 March: local time
        // moves back from 02:00 to 01:00, and forward from 02:00 to 03:00.
        ("XXX0YYY,J60,J60", (2021, July, 1, 12, 0), Answer::At(HOUR)),
        (
            "XXX0YYY,J60,J60",
            (2021, March, 1, 1, 30),
            Answer::Fold(HOUR, 0),
        ),
        ("XXX0YYY,J60,J60", (2021, March, 1, 2, 30), Answer::Gap),
        ("", (2021, March, 28, 2, 30), Answer::At(0)),
    ];

    #[test]
    fn clocks_of_zones(rt: HostRuntime) {
        for (setting, minute, expected) in &CLOCKS {
            let found = match by_setting(rt.alloc(), setting) {
                Some(zone) => answer_of(&zone.time_zone(), *minute),
                None => None,
            };
            assert!(rt; found == Some(*expected), "{setting}");
        }
    }

    // No zone covers 9999-12-30 from 22:00Z on, nor any later time.
    static ENDS: [(Minute, Answer); 5] = [
        ((9999, December, 30, 12, 0), Answer::At(HOUR)),
        ((9999, December, 30, 23, 0), Answer::At(HOUR)),
        ((9999, December, 30, 23, 1), Answer::OutsideZoneRange),
        ((9999, December, 31, 23, 59), Answer::OutsideZoneRange),
        ((10000, July, 1, 12, 0), Answer::OutsideZoneRange),
    ];

    #[test]
    fn ends_of_zone_range(rt: HostRuntime) {
        let zone = by_setting(rt.alloc(), BERLIN);
        for (minute, expected) in &ENDS {
            let found = match &zone {
                Some(zone) => answer_of(&zone.time_zone(), *minute),
                None => None,
            };
            assert!(rt; found == Some(*expected));
        }
    }
}

// The local times of moments.
mod moments {
    use super::{BERLIN, Minute, NEW_YORK, by_setting, clock, utc};
    use time_values::Month::{January, July, March, October};
    use time_zones::{TimeZone, checked_to_zone, offset_at};

    const HOUR: i32 = 3600;

    // Moments in UTC, and the offsets then.
    static OFFSETS: [(&str, Minute, Option<i32>); 8] = [
        (BERLIN, (2021, March, 28, 0, 59), Some(HOUR)),
        (BERLIN, (2021, March, 28, 1, 0), Some(2 * HOUR)),
        (BERLIN, (2021, October, 31, 0, 59), Some(2 * HOUR)),
        (BERLIN, (2021, October, 31, 1, 0), Some(HOUR)),
        (NEW_YORK, (2021, July, 1, 12, 0), Some(-4 * HOUR)),
        (":UTC", (2021, July, 1, 12, 0), Some(0)),
        (BERLIN, (10000, January, 1, 0, 0), None),
        (BERLIN, (-10000, January, 1, 0, 0), None),
    ];

    fn offset_then(zone: &TimeZone<'_>, minute: Minute) -> Option<i32> {
        Some(offset_at(zone, utc(minute)?)?.whole_seconds())
    }

    #[test]
    fn offsets(rt: HostRuntime) {
        for (setting, minute, expected) in &OFFSETS {
            let found = match by_setting(rt.alloc(), setting) {
                Some(zone) => Some(offset_then(&zone.time_zone(), *minute)),
                None => None,
            };
            assert!(rt; found == Some(*expected), "{setting}");
        }
    }

    // Moments in UTC, and their local times: 12:00 + 2:00 = 14:00, and 02:00 - 5:00 = 21:00 of the day before.
    static LOCAL_TIMES: [(&str, Minute, Minute); 2] = [
        (BERLIN, (2021, July, 1, 12, 0), (2021, July, 1, 14, 0)),
        (
            NEW_YORK,
            (2021, January, 2, 2, 0),
            (2021, January, 1, 21, 0),
        ),
    ];

    // Whether that is the local time in the zone.
    fn is_local_time(zone: &TimeZone<'_>, minute: Minute, local: Minute) -> Option<bool> {
        let moment = checked_to_zone(utc(minute)?, zone)?;
        let local = clock(local)?;
        Some(moment.date() == local.date() && moment.time() == local.time())
    }

    #[test]
    fn moments_in_zones(rt: HostRuntime) {
        for (setting, minute, local) in &LOCAL_TIMES {
            let found = match by_setting(rt.alloc(), setting) {
                Some(zone) => is_local_time(&zone.time_zone(), *minute, *local),
                None => None,
            };
            assert!(rt; found == Some(true), "{setting}");
        }
    }
}

// Zones by their names.
mod finding {
    use super::{BERLIN, Shelf};
    use std::alloc::{AllocError, Global};
    use std::test::Fail;
    use time_zones::{ZoneFault, find_zone, find_zone_in, find_zones_in};

    // Values of `TZ`, names, and the result: the name of a zone, or the text of the error.
    static FOUND: [(Option<&str>, &str, &str); 14] = [
        (None, "UTC", "UTC"),
        (None, "Asia/Pyongyang", "Asia/Pyongyang"),
        (None, "local", "there is no time zone file /etc/localtime"),
        (Some(""), "local", "UTC"),
        (Some("Asia/Pyongyang"), "local", "Asia/Pyongyang"),
        (Some(":Asia/Pyongyang"), "local", "Asia/Pyongyang"),
        (Some(":/zones/Asia/Pyongyang"), "local", "no name"),
        (Some("/zones/Asia/Pyongyang"), "local", "no name"),
        (Some(BERLIN), "local", "no name"),
        (Some(BERLIN), "UTC", "UTC"),
        (
            None,
            "Asia/Pyongjang",
            "there is no time zone file /zones/Asia/Pyongjang",
        ),
        (None, "Asia", "the name is that of a folder of time zones"),
        (
            None,
            "Locked",
            "the time zone file cannot be read: permission denied",
        ),
        (None, "tab", "invalid TZif data: the header is not valid"),
    ];

    // The result as a text.
    fn found(alloc: Global, setting: Option<&str>, name: &str) -> Result<String, AllocError> {
        match find_zone_in(alloc, &Shelf { alloc }, "/zones", setting, name) {
            Ok(zone) => String::from_str(alloc, zone.time_zone().iana_name().unwrap_or("no name")),
            Err(fault) => fault.to_string(alloc),
        }
    }

    #[test]
    fn zones_by_name(rt: HostRuntime) -> Result<(), AllocError> {
        for (setting, name, expected) in &FOUND {
            let found = found(rt.alloc(), *setting, name)?;
            assert!(rt; found.as_str() == *expected, "{name}: {found}");
        }
        Ok(())
    }

    // Names that would leave the folder, or that have an empty part.
    static REFUSED: [&str; 9] = [
        "",
        "/etc/passwd",
        "..",
        "../zone",
        "Asia/../zone",
        "Asia/.",
        "Asia/",
        "Asia//Seoul",
        "./Asia",
    ];

    const REASON: &str = "a part of the name of a time zone is empty, `.` or `..`";

    #[test]
    fn names_that_leave_the_folder(rt: HostRuntime) -> Result<(), AllocError> {
        for name in &REFUSED {
            let found = found(rt.alloc(), None, name)?;
            assert!(rt; found.as_str() == REASON, "{name}");
        }
        Ok(())
    }

    // Entries of a folder: names of zones and others.
    static LISTED: [&str; 8] = [
        "tab",
        "Asia/Pyongyang",
        "Asia",
        "Locked",
        "Asia/Seoul",
        "",
        "../zone",
        "Asia/Pyongyang",
    ];

    #[test]
    fn zones_of_names(rt: HostRuntime) -> Result<(), Fail> {
        let alloc = rt.alloc();
        let zones = find_zones_in(alloc, &Shelf { alloc }, "/zones", &LISTED)?;
        for name in &LISTED {
            let found = match zones.get(name.as_bytes()) {
                Some(zone) => zone.iana_name() == Some(*name),
                None => *name != "Asia/Pyongyang",
            };
            assert!(rt; found, "{name}");
        }
        assert!(rt; zones.get(b"UTC").is_some());
        assert!(rt; zones.get(b"pyongyang").is_none());
        Ok(())
    }

    // UTC exists whatever is listed.
    #[test]
    fn zones_of_few_names(rt: HostRuntime) -> Result<(), Fail> {
        let alloc = rt.alloc();
        let names: [&[&str]; 2] = [&[], &["UTC"]];
        for names in &names {
            let zones = find_zones_in(alloc, &Shelf { alloc }, "/zones", names)?;
            assert!(rt; zones.get(b"UTC").is_some());
            assert!(rt; zones.get(b"Asia/Pyongyang").is_none());
        }
        Ok(())
    }

    // A zone isn't skipped when memory runs out.
    #[test]
    fn zones_for_which_memory_is_short(rt: HostRuntime) {
        let alloc = rt.alloc();
        let names = ["Asia/Pyongyang", "Vast", "tab"];
        let found = find_zones_in(alloc, &Shelf { alloc }, "/zones", &names);
        assert!(rt; found.err() == Some(ZoneFault::OutOfMemory));
    }

    #[test]
    fn files_of_the_system(rt: HostRuntime) {
        assert!(rt; find_zone(&rt, "UTC").is_ok());
        assert!(rt; find_zone(&rt, "Nowhere/At_All").is_err());
        assert!(rt; find_zone(&rt, "../etc/passwd").is_err());
    }
}

mod checking {
    //! Which suffixes go with a moment.
    use super::suffixes::moment;
    use super::{BERLIN, Minute, NEW_YORK, by_setting};
    use std::alloc::Global;
    use time_values::Month::{January, July, November};
    use time_zones::SuffixFault::{CriticalKey, OtherOffset, OutsideZoneRange, UnknownZone};
    use time_zones::{NamedZone, SuffixFault, Zones, check_suffix, find_zones, read_suffix};

    // Berlin and New York, by their rules, and UTC.
    fn three(alloc: Global) -> Option<Zones> {
        let mut zones = Zones::new(alloc);
        zones
            .insert("Europe/Berlin", by_setting(alloc, BERLIN)?)
            .ok()?;
        zones
            .insert("America/New_York", by_setting(alloc, NEW_YORK)?)
            .ok()?;
        zones.insert("UTC", NamedZone::Utc).ok()?;
        Some(zones)
    }

    const WINTER: Minute = (2026, November, 27, 15, 0);

    const SUMMER: Minute = (2026, July, 27, 15, 0);

    // A minute in local time at this offset in hours, a suffix, and the error of the suffix.
    type Row = (Minute, i8, &'static [u8], Option<SuffixFault>);

    // Berlin is at +01:00 in winter and +02:00 in summer, New York at -04:00 in summer. RFC 9557, sections 3.3 and 3.4,
    // rejects an offset that isn't the zone's, and an unknown critical key.
    static WITH_LOCAL_OFFSET: [Row; 24] = [
        (WINTER, 1, b"", None),
        (WINTER, 1, b"[Europe/Berlin]", None),
        (WINTER, 1, b"[!Europe/Berlin]", None),
        (WINTER, 2, b"[Europe/Berlin]", Some(OtherOffset)),
        (WINTER, 2, b"[!Europe/Berlin]", Some(OtherOffset)),
        (WINTER, 0, b"[Europe/Berlin]", Some(OtherOffset)),
        (SUMMER, 2, b"[Europe/Berlin]", None),
        (SUMMER, 1, b"[Europe/Berlin]", Some(OtherOffset)),
        (SUMMER, -4, b"[America/New_York]", None),
        (SUMMER, -5, b"[America/New_York]", Some(OtherOffset)),
        (WINTER, 0, b"[UTC]", None),
        (WINTER, 1, b"[UTC]", Some(OtherOffset)),
        (WINTER, 1, b"[europe/berlin]", Some(UnknownZone)),
        (WINTER, 1, b"[Europe/Berli]", Some(UnknownZone)),
        (WINTER, 1, b"[!Europe/Nowhere]", Some(UnknownZone)),
        (WINTER, 1, b"[+01:00]", None),
        (WINTER, 1, b"[!+02:00]", Some(OtherOffset)),
        (WINTER, -5, b"[-05:00]", None),
        (WINTER, 0, b"[-00:00]", None),
        (WINTER, 1, b"[Europe/Berlin][u-ca=gregory]", None),
        (
            WINTER,
            1,
            b"[Europe/Berlin][!u-ca=gregory]",
            Some(CriticalKey),
        ),
        (
            WINTER,
            2,
            b"[Europe/Berlin][!u-ca=gregory]",
            Some(CriticalKey),
        ),
        (
            (10000, January, 1, 12, 0),
            1,
            b"[Europe/Berlin]",
            Some(OutsideZoneRange),
        ),
        ((10000, January, 1, 12, 0), 1, b"[+01:00]", None),
    ];

    // Suffixes after `Z` and `-00:00`, which don't state the local offset.
    static WITHOUT_LOCAL_OFFSET: [Row; 6] = [
        (WINTER, 0, b"[Europe/Berlin]", None),
        (WINTER, 0, b"[!Europe/Berlin]", None),
        (WINTER, 0, b"[+05:00]", None),
        (WINTER, 0, b"[Europe/Nowhere]", Some(UnknownZone)),
        (WINTER, 0, b"[!u-ca=gregory]", Some(CriticalKey)),
        ((10000, January, 1, 12, 0), 0, b"[Europe/Berlin]", None),
    ];

    // The error of a suffix, if it has one; or `None` where the row has no moment.
    fn suffix_error(
        row: &Row,
        has_local_offset: bool,
        zones: &Zones,
    ) -> Option<Option<SuffixFault>> {
        let (minute, hours, text, _) = *row;
        let moment = moment(minute, hours)?;
        Some(check_suffix(&read_suffix(text), moment, has_local_offset, zones).err())
    }

    // Whether each row of the table is right.
    fn all_rows_match(rows: &[Row], has_local_offset: bool, zones: &Zones) -> bool {
        for row in rows {
            if suffix_error(row, has_local_offset, zones) != Some(row.3) {
                return false;
            }
        }
        true
    }

    #[test]
    fn suffixes_of_moments(rt: HostRuntime) {
        let Some(zones) = three(rt.alloc()) else {
            assert!(rt; false);
            return;
        };
        assert!(rt; all_rows_match(&WITH_LOCAL_OFFSET, true, &zones));
        assert!(rt; all_rows_match(&WITHOUT_LOCAL_OFFSET, false, &zones));
    }

    #[test]
    fn zones_by_exact_names(rt: HostRuntime) {
        let Some(mut zones) = three(rt.alloc()) else {
            assert!(rt; false);
            return;
        };
        assert!(rt; zones.get(b"UTC").is_some());
        assert!(rt; zones.get(b"utc").is_none());
        assert!(rt; zones.get(b"").is_none());
        assert!(rt; zones.get(b"\xff").is_none());
        assert!(rt; zones.insert("", NamedZone::Utc).is_ok());
        assert!(rt; zones.get(b"").is_some());
    }

    #[test]
    fn zones_of_the_system(rt: HostRuntime) {
        match find_zones(&rt) {
            Ok(zones) => {
                assert!(rt; zones.get(b"UTC").is_some());
                assert!(rt; zones.get(b"posix/UTC").is_none());
                assert!(rt; zones.get(b"../zoneinfo/UTC").is_none());
            }
            Err(fault) => assert!(rt; false, "{fault}"),
        }
    }
}
