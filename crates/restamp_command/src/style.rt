//! How moments are written by the options.
ghost use Rattle.std.specs.Prelude.{◌≡◌, MatchResult, false};
ghost use Rattle.restamp_formats.specs.Naming.{IsWritingFault, fault_of};
ghost use Rattle.restamp_command.specs.Fault.{erased_fault};
ghost use Rattle.restamp_command.specs.Request as spec;

use crate::fault::Fault;
use crate::formats::is_zoned;
use crate::options::Options;
use crate::values::find_digits;
use crate::zone::{Zone, parse_zone};
use restamp_formats::{FormatFault, Named, Writing, find_writing};
use std::alloc::Global;
use std::rt::{Env, Files};
use time_formatting::FractionDigits;
use time_zones::write_suffix;

/// How a moment is written: the format, the digits of a fraction, the zone, and the suffix after the timestamp.
#[derive(Drop)]
pub struct Style {
    /// The format.
    pub writing: Writing,
    /// How many digits the fraction of RFC 3339 has. Other formats ignore it.
    pub digits: FractionDigits,
    /// The zone that moments are converted to.
    pub zone: Zone,
    /// The text after each timestamp: for RFC 9557 the zone's name or offset in brackets, otherwise nothing.
    pub suffix: Vec<u8>,
}

// The name of the output zone: `utc` for `--utc`, otherwise the value of `--zone`.
fn zone_of<'a>(options: &Options<'_, 'a>) -> &'a str
    ensures { result.now ≡ spec.zone_of options.now }
{
    if options.utc { "utc" } else { options.zone }
}

// The output format that the text names or describes; RFC 3339 for `rfc9557`. An error if there is none.
fn find_format<'a>(name: &'a str) -> Result<Writing, FormatFault<'a>>
    ensures { MatchResult result (λ writing. spec.IsWriting name.now writing)
        (λ fault. (spec.is_zoned name.now ≡ false) × IsWritingFault name.now (fault_of fault)) }
{
    if is_zoned(name) {
        return Ok(Writing::Named(Named::Rfc3339));
    }
    find_writing(name.as_bytes())
}

// The text after each timestamp: for `rfc9557` the zone in brackets, otherwise nothing. An error if memory is short, or
// `rfc9557` has a zone without a name that RFC 9557 allows and without an offset of whole minutes below 24 hours.
fn find_suffix<'a>(alloc: Global, name: &'a str, zone: &Zone) -> Result<Vec<u8>, Fault<'a>>
    ensures { MatchResult result (λ suffix. spec.IsSuffixBy name.now zone.now suffix.items)
        (λ fault. spec.IsSuffixFault name.now zone.now (erased_fault fault)) }
{
    if !is_zoned(name) {
        return Ok(Vec::new(alloc));
    }
    let Some(text) = zone.text() else {
        return Err(Fault::Unnamed(name));
    };
    match write_suffix(alloc, text) {
        Ok(Some(suffix)) => Ok(suffix),
        Ok(None) => Err(Fault::Unnamed(name)),
        Err(_) => Err(Fault::Memory),
    }
}

/// How a moment is written, by `--to`, `--zone` or `--utc`, and `--digits`. An error if an option rejects its value, if
/// `rfc9557` has no text for the zone, or if memory is short.
pub(crate) fn find_style<'a, R: Env + Files + AllocGlobal>(
    rt: &R,
    options: &Options<'_, 'a>,
) -> Result<Style, Fault<'a>>
    ensures { MatchResult result (λ style. spec.IsStyle options.now style)
        (λ fault. spec.IsFault options.now (erased_fault fault)) }
{
    let writing = match find_format(options.to) {
        Ok(writing) => writing,
        Err(why) => return Err(Fault::To(options.to, why)),
    };
    let name = zone_of(options);
    let zone = match parse_zone(rt, name) {
        Ok(zone) => zone,
        Err(why) => return Err(Fault::Zone(name, why)),
    };
    let Some(digits) = find_digits(options.digits) else {
        return Err(Fault::Digits(options.digits));
    };
    let suffix = match find_suffix(rt.alloc(), options.to, &zone) {
        Ok(suffix) => suffix,
        Err(fault) => return Err(fault),
    };
    Ok(Style {
        writing,
        digits,
        zone,
        suffix,
    })
}
