//! The formats that the options request.
ghost use Rattle.std.specs.Prelude.{◌≡◌, [], ◌∷◌, IfErr, MatchResult, OnOk, map};
ghost use Rattle.restamp_command.specs.Options as options_;
ghost use Rattle.restamp_command.specs.Fault.{erased_fault};
ghost use Rattle.restamp_command.specs.Request as spec;

use crate::fault::Fault;
use crate::options::Options;
use restamp_formats::{Reading, find_reading};
use std::rt::{Env, Files};
use time_zones::find_zones;

/// Whether there is a default year: `--year` or `--latest` is given.
pub(crate) fn has_default_year(options: &Options<'_, '_>) -> bool
    ensures { result ≡ spec.has_default_year options.now }
{
    options.year.is_some() || options.latest.is_some()
}

/// Whether the name is `rfc9557`: the format whose timestamps may have a suffix with their zone.
pub(crate) fn is_zoned(name: &str) -> bool
    ensures { result ≡ spec.is_zoned name.now }
{
    name == "rfc9557"
}

// The format that the text names or describes. An error if there is none, if `missing_field` returns a part (a day, its
// year, an hour or its half of the day), or if it is RFC 9557 and the zones of the system can't be read. `has_year` is
// whether there is a default year.
fn find_format<'a, R: Env + Files + AllocGlobal + Clone + Drop>(
    rt: &R,
    name: &'a str,
    has_year: bool,
) -> Result<Reading, Fault<'a>>
    ensures { MatchResult result (λ format. spec.IsFormat has_year name.now format)
        (λ fault. spec.IsFormatFault has_year (name.now ∷ []) (erased_fault fault)) }
{
    if is_zoned(name) {
        let zones = find_zones(rt).map_err(|why| Fault::Zones(name, why))?;
        return Ok(Reading::Zoned(zones));
    }
    let format = find_reading(name.as_bytes()).map_err(|why| Fault::From(name, why))?;
    match format.missing_field(has_year) {
        Some(missing_field) => Err(Fault::IncompleteFormat(name, missing_field)),
        None => Ok(format),
    }
}

/// The names of all formats of `--from` but the first; empty if there are fewer than two.
pub(crate) fn other_names<'m, 'a>(options: &Options<'m, 'a>) -> &'m [&'a str]
    ensures { map (λ name. name.now) result.now ≡ options_.other_names options.now }
{
    match options.formats {
        Some([_, names @ ..]) => names,
        _ => &[],
    }
}

/// The format of the first `--from`, or RFC 3339 without that option. The errors are those of `find_format`.
pub(crate) fn find_first<'a, R: Env + Files + AllocGlobal + Clone + Drop>(
    rt: &R,
    options: &Options<'_, 'a>,
) -> Result<Reading, Fault<'a>>
    ensures { MatchResult result (λ first. spec.IsFormat (spec.has_default_year options.now) options.now.from.now first)
        (λ fault. spec.IsFault options.now (erased_fault fault)) }
{
    find_format(rt, options.from, has_default_year(options))
}

/// Appends the formats of those names to `formats`. `has_year` is whether there is a default year. It stops at the
/// first error, of `find_format` or that memory is short; the formats before it stay appended.
pub(crate) fn add_formats<'a, R: Env + Files + AllocGlobal + Clone + Drop>(
    rt: &R,
    names: &[&'a str],
    has_year: bool,
    formats: &mut Vec<Reading>,
) -> Result<(), Fault<'a>>
    ensures ok { OnOk result
        (spec.AddsFormats has_year (map (λ name. name.now) names.now) formats.old.items formats.new.items) }
    ensures err { IfErr result
        (λ fault. spec.IsFormatFault has_year (map (λ name. name.now) names.now) (erased_fault fault)) }
{
    for name in names {
        let format = find_format(rt, name, has_year)?;
        formats.push(format).map_err(|_| Fault::Memory)?;
    }
    Ok(())
}
