//! What the options request, with all values parsed.
ghost use Rattle.std.specs.Prelude.{◌≡◌, MatchResult, Some};
ghost use Rattle.restamp_command.specs.Options.{text_behind};
ghost use Rattle.restamp_command.specs.Fault.{erased_fault};
ghost use Rattle.restamp_command.specs.Request as spec;

use crate::bounds::find_moment;
use crate::fault::{Fault, TimeArgError};
use crate::formats::{add_formats, find_first, has_default_year, other_names};
use crate::options::Options;
use crate::style::{Style, find_style};
use crate::uses::find_unused;
use crate::values::{
    find_delimiter, find_fold, find_number, find_offset, find_positive, find_shows, find_year,
};
use crate::zone::{Local, OwnedDefaults};
use restamp_formats::{Defaults, Fold, Form, Reading};
use restamp_lines::Job;
use restamp_place::{Fields, Place};
use restamp_stream::{Output, Reports, Settings};
use std::rt::{Env, Files};
use time_values::{OffsetDateTime, UtcDateTime, UtcOffset};
use time_zones::find_zone;

/// What the options request, with all values parsed and all formats and zones loaded.
#[derive(Drop)]
pub struct Request<'a> {
    /// The place of a line's timestamp; for `None` it is the first text in the line that a format matches.
    pub place: Option<Place<'a>>,
    /// The format that is tried first. If no format matches at `place`, its error is the reason.
    pub first: Reading,
    /// The formats that are tried next, in turn.
    pub others: Vec<Reading>,
    /// Defaults for what a timestamp omits.
    pub given: OwnedDefaults<'a>,
    /// How a moment is written.
    pub style: Style,
    /// Drops lines with an earlier moment; `None` drops none.
    pub since: Option<OffsetDateTime>,
    /// Drops lines with this moment or a later one; `None` drops none.
    pub until: Option<OffsetDateTime>,
    /// Which lines are written.
    pub output: Output,
    /// Which rejected lines are reported.
    pub reports: Reports,
    /// Whether to stop at the first rejected line.
    pub stops: bool,
    /// Prints rejected lines below their reasons, in colours, with a caret under the column of the error.
    pub shows_lines: bool,
    /// Whether a rejected line makes the exit status 2, and a line without a timestamp is rejected.
    pub strict: bool,
    /// The suffix of backups' names, in which `*` means the file's name; empty without backups. `None`: no file is
    /// replaced.
    pub in_place: Option<&'a str>,
}

// How a line is split into fields, by `--blanks`, `--csv` and `--delimiter`. An error if the delimiter isn't one byte
// or `\t`, unless `--blanks` is given.
fn find_fields<'a>(options: &Options<'_, 'a>) -> Result<Fields, Fault<'a>>
    ensures { MatchResult result (λ fields. spec.fields_of options.now ≡ Some fields)
        (λ fault. spec.IsFault options.now (erased_fault fault)) }
{
    if options.blanks {
        return Ok(Fields::Blank);
    }
    let byte = find_delimiter(options.delimiter).ok_or(Fault::Delimiter(options.delimiter))?;
    if options.csv {
        Ok(Fields::Quoted(byte))
    } else {
        Ok(Fields::Delimited(byte))
    }
}

// The place of the field of that number, from 1. An error if the text is no such number, or for a bad delimiter.
fn find_field<'a>(options: &Options<'_, 'a>, number: &'a str) -> Result<Place<'a>, Fault<'a>>
    ensures { MatchResult result (λ place. spec.IsFieldPlace options.now (Some number.now) (spec.erased_place (Some place)))
        (λ fault. text_behind options.now.field ≡ Some number.now → spec.IsFault options.now (erased_fault fault)) }
{
    let fields = find_fields(options)?;
    let index = find_positive(number).ok_or(Fault::Field(number))?;
    Ok(Place::Field(fields, index))
}

// A timestamp's place: by default the whole line, `None` for `--anywhere`. Only `--field` has errors (`find_field`).
fn find_place<'a>(options: &Options<'_, 'a>) -> Result<Option<Place<'a>>, Fault<'a>>
    ensures { MatchResult result (λ place. spec.IsPlace options.now (spec.erased_place place))
        (λ fault. spec.IsFault options.now (erased_fault fault)) }
{
    if options.front {
        return Ok(Some(Place::Front));
    }
    if options.anywhere {
        return Ok(None);
    }
    if let Some(key) = options.after {
        return Ok(Some(Place::After(key.as_bytes())));
    }
    if let Some((open, close)) = options.between {
        return Ok(Some(Place::Between(open.as_bytes(), close.as_bytes())));
    }
    let Some(number) = options.field else {
        return Ok(Some(Place::Whole));
    };
    Ok(Some(find_field(options, number)?))
}

// The default year: the value of `--year`, `None` without it. An error if the value is no year from -999999 to 999999.
fn find_given_year<'a>(options: &Options<'_, 'a>) -> Result<Option<i32>, Fault<'a>>
    ensures { MatchResult result (λ year. spec.IsYearGiven (text_behind options.now.year) year)
        (λ fault. spec.IsFault options.now (erased_fault fault)) }
{
    let Some(text) = options.year else {
        return Ok(None);
    };
    Ok(Some(find_year(text).ok_or(Fault::Year(text))?))
}

// The default offset: the value of `--offset`, or UTC without it. An error if that is no offset such as `+05:30`.
fn find_given_offset<'a>(options: &Options<'_, 'a>) -> Result<UtcOffset, Fault<'a>>
    ensures { MatchResult result (λ offset. spec.IsOffsetGiven (text_behind options.now.offset) offset)
        (λ fault. spec.IsFault options.now (erased_fault fault)) }
{
    let Some(text) = options.offset else {
        return Ok(UtcOffset::UTC);
    };
    find_offset(text).ok_or(Fault::Offset(text))
}

// What an ambiguous local time means, by `--fold`; without it, an ambiguous local time is rejected. An error if the
// value isn't `refuse`, `earlier` or `later`.
fn find_given_fold<'a>(options: &Options<'_, 'a>) -> Result<Fold, Fault<'a>>
    ensures { MatchResult result (λ fold. spec.IsFoldGiven (text_behind options.now.fold) fold)
        (λ fault. spec.IsFault options.now (erased_fault fault)) }
{
    let Some(text) = options.fold else {
        return Ok(Fold::Refuse);
    };
    find_fold(text).ok_or(Fault::Fold(text))
}

// The name of a zone in reports: `the local zone` for `local`, otherwise the name itself.
fn reported_zone_name(name: &str) -> &str
    ensures { result.now ≡ spec.reported_zone_name name.now }
{
    if name == "local" {
        "the local zone"
    } else {
        name
    }
}

// The default for an omitted offset: the zone of `--in`, or else the offset of `--offset`, or else UTC. An error if an
// option rejects its value, or the zone can't be loaded.
fn find_local<'a, R: Env + Files + AllocGlobal>(
    rt: &R,
    options: &Options<'_, 'a>,
) -> Result<Local<'a>, Fault<'a>>
    ensures { MatchResult result (λ local. spec.IsLocalGiven options.now (text_behind options.now.local) local)
        (λ fault. spec.IsFault options.now (erased_fault fault)) }
{
    let Some(name) = options.local else {
        return Ok(Local::Offset(find_given_offset(options)?));
    };
    let fold = find_given_fold(options)?;
    match find_zone(rt, name) {
        Ok(named) => Ok(Local::Zone(named, reported_zone_name(name), fold)),
        Err(why) => Err(Fault::In(name, why)),
    }
}

// The defaults for an omitted year and an omitted offset, without a latest moment. An error if an option rejects its
// value, or the zone of `--in` can't be loaded.
fn find_parts<'a, R: Env + Files + AllocGlobal>(
    rt: &R,
    options: &Options<'_, 'a>,
) -> Result<OwnedDefaults<'a>, Fault<'a>>
    ensures { MatchResult result (λ parts. spec.AreParts options.now parts)
        (λ fault. spec.IsFault options.now (erased_fault fault)) }
{
    let year = find_given_year(options)?;
    let local = find_local(rt, options)?;
    Ok(OwnedDefaults {
        year,
        local,
        latest: None,
    })
}

// The moment of the text of `--since`, `--until` or `--latest`, by RFC 3339 or one of the formats, or as a word by the
// clock at `now`; `None` without a text. The error is the text, and why it is no moment.
fn find_bound<'a>(
    now: Option<UtcDateTime>,
    first: &Reading,
    others: &[Reading],
    defaults: &Defaults<'_>,
    text: Option<&'a str>,
) -> Result<Option<OffsetDateTime>, (&'a str, TimeArgError)>
    ensures { spec.IsBound now first.now others.now defaults.now (text_behind text.entry) (spec.erased_bound result) }
{
    let Some(text) = text else {
        return Ok(None);
    };
    let moment = find_moment(now, first, others, text, defaults).map_err(|why| (text, why))?;
    Ok(Some(moment))
}

// The defaults for an omitted year and offset, and with them the moment of `--latest`, by RFC 3339 or a format, or as a
// word by the clock at `now`. An error if an option rejects its value, or the zone of `--in` can't be loaded.
#[tactic(auto, using(crate::proofs::FormatLemmas::fault_at))]
fn find_given<'a, R: Env + Files + AllocGlobal>(
    rt: &R,
    options: &Options<'_, 'a>,
    now: Option<UtcDateTime>,
    first: &Reading,
    others: &[Reading],
) -> Result<OwnedDefaults<'a>, Fault<'a>>
    requires { spec.AreFormats options.now first.now others.now }
    ensures { MatchResult result (λ given. spec.IsGiven now options.now first.now others.now given)
        (λ fault. spec.IsFaultAt now options.now (erased_fault fault)) }
{
    let parts = find_parts(rt, options)?;
    let latest = find_bound(now, first, others, &parts.defaults(), options.latest).map_err(|(
        text,
        why,
    )| Fault::Latest(text, why))?;
    Ok(OwnedDefaults { latest, ..parts })
}

// Which lines are written: only the times for `--only`, or else only rewritten lines for `--drop-refused`, or else all
// but those out of the bounds.
fn output_of(options: &Options<'_, '_>) -> Output
    ensures { result ≡ spec.output_of options.now }
{
    if options.only {
        Output::Times
    } else if options.drop_refused {
        Output::RewrittenLines
    } else {
        Output::AllLines
    }
}

// Whether to stop at the first rejected line: `--strict` without `--keep-going`.
fn stops(options: &Options<'_, '_>) -> bool
    ensures { result ≡ spec.stops options.now }
{
    options.strict && !options.keep_going
}

// Which rejected lines are reported: none for `--quiet`, otherwise the first ones of each file, as many as `--errors`.
// An error if that is no number, even with `--quiet`.
fn find_reports<'a>(options: &Options<'_, 'a>) -> Result<Reports, Fault<'a>>
    ensures { MatchResult result (λ reports. spec.AreReports options.now reports)
        (λ fault. spec.IsFault options.now (erased_fault fault)) }
{
    let errors = find_number(options.errors).ok_or(Fault::Errors(options.errors))?;
    if options.quiet {
        return Ok(Reports::Quiet);
    }
    Ok(Reports::First(errors))
}

// The suffix of the backups of files that are replaced, empty without backups; `None` without `--in-place`. An error if
// it has a slash.
fn find_in_place<'a>(options: &Options<'_, 'a>) -> Result<Option<&'a str>, Fault<'a>>
    ensures { MatchResult result (λ suffix. spec.IsSuffix options.now (text_behind suffix))
        (λ fault. spec.IsFault options.now (erased_fault fault)) }
{
    let Some(suffix) = options.in_place else {
        return Ok(None);
    };
    if suffix.as_bytes().contains(&b'/') {
        return Err(Fault::InPlace(suffix));
    }
    Ok(Some(suffix))
}

// Whether reports have colours: for `always`; for `auto` if `is_terminal` is true; not for `never`. Else an error.
fn find_colors<'a>(options: &Options<'_, 'a>, is_terminal: bool) -> Result<bool, Fault<'a>>
    ensures { MatchResult result (λ shows. spec.AreColors options.now is_terminal shows)
        (λ fault. spec.IsFault options.now (erased_fault fault)) }
{
    find_shows(options.color, is_terminal).ok_or(Fault::Color(options.color))
}

// The moments of `--since` and `--until`, each `None` without the option. An error if the text of one is no moment.
fn find_bounds<'a>(
    options: &Options<'_, 'a>,
    now: Option<UtcDateTime>,
    first: &Reading,
    others: &[Reading],
    given: &OwnedDefaults<'_>,
) -> Result<(Option<OffsetDateTime>, Option<OffsetDateTime>), Fault<'a>>
    requires formats { spec.AreFormats options.now first.now others.now }
    requires given { spec.IsGiven now options.now first.now others.now given.now }
    ensures { MatchResult result (λ bounds. spec.AreBounds now options.now first.now others.now given.now bounds)
        (λ fault. spec.IsFaultAt now options.now (erased_fault fault)) }
{
    let defaults = given.defaults();
    let since = find_bound(now, first, others, &defaults, options.since).map_err(|(
        text,
        why,
    )| Fault::Since(text, why))?;
    let until = find_bound(now, first, others, &defaults, options.until).map_err(|(
        text,
        why,
    )| Fault::Until(text, why))?;
    Ok((since, until))
}

impl<'a> Request<'a> {
    /// The request of the options. If `--color` is `auto`, reports have colours if `is_terminal` is true. It loads a
    /// named zone from its file, and all zones of the system for `--from rfc9557`. `now` is the clock's time, or
    /// `None` if it is unreadable or out of range. It matters only if a time in the options is a word such as `today`.
    ///
    /// It is an error if an option rejects its value, is a default that no format can use, or needs zones that can't be
    /// loaded, or if memory is short.
    #[tactic(auto, using(crate::proofs::FormatLemmas::fault_at))]
    pub fn new<R: Env + Files + AllocGlobal + Clone + Drop>(
        rt: &R,
        options: &Options<'_, 'a>,
        is_terminal: bool,
        now: Option<UtcDateTime>,
    ) -> Result<Request<'a>, Fault<'a>>
        ensures { MatchResult result (spec.IsRequestOf now options.now is_terminal)
            (λ fault. spec.IsFaultAt now options.now (erased_fault fault)) }
    {
        let place = find_place(options)?;
        let reports = find_reports(options)?;
        let in_place = find_in_place(options)?;
        let shows_lines = find_colors(options, is_terminal)?;
        let first = find_first(rt, options)?;
        let mut others = Vec::new(rt.alloc());
        let names = other_names(options);
        add_formats(rt, names, has_default_year(options), &mut others)?;
        let given = find_given(rt, options, now, &first, others.as_slice())?;
        if let Some(fault) = find_unused(options, &first, others.as_slice()) {
            return Err(fault);
        }
        let (since, until) = find_bounds(options, now, &first, others.as_slice(), &given)?;
        let style = find_style(rt, options)?;
        Ok(Request {
            place,
            first,
            others,
            given,
            style,
            since,
            until,
            output: output_of(options),
            reports,
            stops: stops(options),
            shows_lines,
            strict: options.strict,
            in_place,
        })
    }

    /// The settings for the lines of files: `output`, `reports` and `style.suffix`. Their `strict` is `self.stops`.
    pub fn settings(&self) -> Settings<'_>
        ensures { spec.AreSettingsOf self.now result }
    {
        Settings {
            output: self.output,
            suffix: self.style.suffix.as_slice(),
            reports: self.reports,
            strict: self.stops,
        }
    }

    /// The job, which decides the action of each line. If `self.strict` is true, it rejects lines without a timestamp.
    pub fn job(&self) -> Job<'_>
        ensures { spec.IsJobOf self.now result }
    {
        Job {
            place: self.place,
            first: &self.first,
            others: self.others.as_slice(),
            defaults: self.given.defaults(),
            form: Form {
                writing: &self.style.writing,
                digits: self.style.digits,
                clock: self.style.zone.clock(),
            },
            since: self.since,
            until: self.until,
            requires_timestamp: self.strict,
        }
    }
}
