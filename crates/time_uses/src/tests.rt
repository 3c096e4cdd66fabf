//! The functions on examples of the standards, and on values that were computed by hand.
use crate::*;
use std::test::Fail;
use time::format_description::BorrowedFormatItem;
use time::{Month, UtcOffset, item};

// The examples of RFC 3339, section 5.8.
#[test]
fn lines_of_a_log(rt: HostRuntime) -> Result<(), Fail> {
    let (moment, rest) = log_line(b"1996-12-19T16:39:57-08:00 listening")?;
    assert_eq!(rt; moment.unix_timestamp(), 851_042_397);
    assert!(rt; rest == b" listening".as_slice());
    let (moment, rest) = log_line(b"1985-04-12T23:20:50.52Z")?;
    assert_eq!(rt; moment.unix_timestamp_nanos(), 482_196_050_520_000_000);
    assert!(rt; rest.is_empty());
    assert!(rt; log_line(b"1996-12-19 listening").is_err());
    Ok(())
}

// The examples of RFC 2822, appendices A.1.1 and A.5.
#[test]
fn headers_of_mail(rt: HostRuntime) -> Result<(), Fail> {
    let moment = mail_date("Fri, 21 Nov 1997 09:55:06 -0600")?;
    assert_eq!(rt; moment.unix_timestamp(), 880_127_706);
    let moment = mail_date(
        "Thu,\r\n      13\r\n        Feb\r\n          1969\r\n      23:32\r\n               -0330 (Newfoundland Time)",
    )?;
    assert_eq!(rt; moment.unix_timestamp(), -27_723_480);
    assert!(rt; mail_date("Fri, 21 Nov 1997").is_err());
    Ok(())
}

#[test]
fn dates_of_a_configuration(rt: HostRuntime) -> Result<(), Fail> {
    let description = "[day]/[month repr:short]/[year]";
    let Ok(date) = configured_date(description, "04/Mar/2021") else {
        return Err("no date".into());
    };
    assert_eq!(rt; date, Date::from_calendar_date(2021, Month::March, 4)?);
    assert!(rt; configured_date(description, "30/Feb/2021").is_err());
    assert!(rt; configured_date("[dya]", "04").is_err());
    Ok(())
}

// ISO 8601 counts the hours of `+0530` ahead of UTC.
#[test]
fn starts_of_events(rt: HostRuntime) -> Result<(), Fail> {
    let start = event_start("20210102T030405+0530")?;
    assert_eq!(rt; start.unix_timestamp(), 1_609_536_845);
    let start = event_start("20210102T030405Z")?;
    assert_eq!(rt; start.unix_timestamp(), 1_609_556_645);
    assert!(rt; event_start("20211302T030405Z").is_err());
    Ok(())
}

// 0.33 hours are 1188 seconds, and 0.5 minutes are 30.
#[test]
fn fractions(rt: HostRuntime) -> Result<(), Fail> {
    assert_eq!(rt; time_of_day("03.33")?, Time::from_hms_nano(3, 19, 48, 0)?);
    assert_eq!(rt; time_of_day("03:04,5")?, Time::from_hms_nano(3, 4, 30, 0)?);
    let time = time_of_day("03:04:05.000000001")?;
    assert_eq!(rt; time, Time::from_hms_nano(3, 4, 5, 1)?);
    assert!(rt; time_of_day("25.5").is_err());
    Ok(())
}

#[test]
fn dates_of_this_year(rt: HostRuntime) -> Result<(), Fail> {
    let items = [item!(MonthNumerical), item!("-"), item!(Day)];
    let description = BorrowedFormatItem::Compound(&items);
    assert_eq!(rt; date_in(2021, b"03-04", &description)?.ordinal(), 63);
    assert_eq!(rt; date_in(2024, b"02-29", &description)?.ordinal(), 60);
    assert!(rt; date_in(2021, b"02-29", &description).is_err());
    Ok(())
}

// The byte index of the error of a text in RFC 3339. `None`: the text is valid, or its error has no index.
fn index_in(text: &[u8]) -> Option<usize> {
    let error = OffsetDateTime::parse(text, &Rfc3339).err()?;
    error_index(text, &Rfc3339, error)
}

#[test]
fn indices_of_errors(rt: HostRuntime) -> Result<(), Fail> {
    assert_eq!(rt; index_in(b"2021-13-02T03:04:05Z"), Some(5));
    assert_eq!(rt; index_in(b"2021-01-02 03:04:05"), Some(19));
    assert_eq!(rt; index_in(b"2021-02-30T03:04:05Z"), Some(8));
    assert_eq!(rt; index_in(b"2021-02-28T03:04:05Z"), None);
    Ok(())
}

#[test]
fn texts_parsed_back(rt: HostRuntime) -> Result<(), Fail> {
    let date = Date::from_calendar_date(1985, Month::April, 12)?;
    let time = Time::from_hms_nano(23, 20, 50, 520_000_000)?;
    let moment = OffsetDateTime::new_in_offset(date, time, UtcOffset::UTC);
    assert!(rt; parsed_back(moment) == Some(moment));
    // RFC 3339 has no offset with seconds.
    let offset = UtcOffset::from_hms(0, 0, 1)?;
    assert!(rt; parsed_back(OffsetDateTime::new_in_offset(date, time, offset)).is_none());
    Ok(())
}
