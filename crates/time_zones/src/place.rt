//! Finds the place of a zone from its name and from the variable `TZ`.
ghost use Rattle.std.specs.Prelude.{◌≡◌, ◌↔◌, IsTrue, option_map};
ghost use Rattle.time_zones.specs.Finding.{IsPart, IsZoneName, IsPlaceOfName, IsPlaceOfPath, IsPlaceOfSetting, IsRequestedPlace};

use jiff_tz::posix;

/// Where the data of a zone is.
#[derive(Clone, Copy)]
pub(crate) enum Place<'a> {
    /// UTC, which needs no file.
    Utc,
    /// A POSIX rule, which needs no file either.
    Rule(posix::TimeZone),
    /// The file of that name in the folder of zones.
    InFolder(&'a str),
    /// The file at that absolute path.
    AtPath(&'a str),
}

// Whether a part of a name is neither empty nor `.` nor `..`.
fn is_part(part: &str) -> bool
    ensures { IsTrue result ↔ IsPart part.now }
{
    !matches!(part, "" | "." | "..")
}

// Whether each part of the name, between slashes, is neither empty nor `.` nor `..`.
fn is_zone_name(name: &str) -> bool
    ensures { IsTrue result ↔ IsZoneName name.now }
{
    let mut rest = name;
    'parts: while let Some((part, after)) = rest.split_once('/') {
        if !is_part(part) {
            return false;
        }
        rest = after;
    }
    is_part(rest)
}

/// UTC for `UTC`, and else the file of that name in the folder of zones. `None` if a part of the name, between slashes,
/// is empty, `.` or `..`.
pub(crate) fn named(name: &str) -> Option<Place<'_>>
    ensures { IsPlaceOfName name.now result }
{
    if name == "UTC" {
        return Some(Place::Utc);
    }
    if !is_zone_name(name) {
        return None;
    }
    Some(Place::InFolder(name))
}

// The file at the path, if the text begins with a slash, and else the place that the text specifies as a name. `None`
// if that name is invalid.
fn at_path(text: &str) -> Option<Place<'_>>
    ensures { IsPlaceOfPath text.now result }
{
    match text.as_bytes() {
        [b'/', ..] => Some(Place::AtPath(text)),
        _ => named(text),
    }
}

// The place that a value of `TZ` specifies: UTC if it is empty, a path or a name after a colon, and else a rule, or, if
// it isn't one, a path or a name. `None` if the name is invalid.
fn by_setting(setting: &str) -> Option<Place<'_>>
    ensures { IsPlaceOfSetting setting.now result }
{
    if setting.is_empty() {
        return Some(Place::Utc);
    }
    if let Some(path) = setting.strip_prefix(':') {
        return at_path(path);
    }
    match posix::TimeZone::parse(setting.as_bytes()) {
        Ok(rule) => Some(Place::Rule(rule)),
        Err(_) => at_path(setting),
    }
}

/// The place that a name specifies. For `local` it is the place that `setting`, the value of `TZ`, specifies, or
/// /etc/localtime if `TZ` isn't set. `None` if the name, or that in `TZ`, is invalid.
pub(crate) fn requested_place<'a>(setting: Option<&'a str>, name: &'a str) -> Option<Place<'a>>
    ensures { IsRequestedPlace (option_map (λ s. s.now) setting.entry) name.now result }
{
    if name != "local" {
        return named(name);
    }
    match setting {
        Some(setting) => by_setting(setting),
        None => Some(Place::AtPath("/etc/localtime")),
    }
}
