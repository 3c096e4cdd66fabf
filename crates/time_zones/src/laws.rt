//! Laws of the local times of zones. Each contract is a law of what the function returns.
ghost use Rattle.std.specs.Prelude.{◌≡◌, ◌↔◌, Some, IsSome, IfSome, Result};
ghost use Rattle.time_zones.specs.Suffix.{OneCheck, OneSuffix, NamesInFolder, WrittenIsSuffix};
ghost use Rattle.time_zones.specs.Zones.{IsInZoneRange, HasZoneOffset, IsAnswer, RoundTrips};
ghost use Rattle.time_zones.specs.declared.clocks.NotOne.{NotOne as NotOne_};
ghost use Rattle.time_values.specs.declared.offset_date_time.OffsetDateTime.{OffsetDateTime as Moment};

use crate::clocks::{NotOne, assume_zone, checked_to_zone};
use jiff_tz::TimeZone;
use time_values::{OffsetDateTime, PlainDateTime};

/// The local time of a moment in a zone resolves to the moment's instant again, or to a fold whose first moment isn't
/// after it and whose last isn't before it. `None` if the moment is outside the range of zones.
pub fn law_read_back(
    moment: OffsetDateTime,
    zone: &TimeZone<'_>,
) -> Option<Result<OffsetDateTime, NotOne>>
    ensures told { IsSome result ↔ IsInZoneRange moment }
    ensures back { IfSome result (RoundTrips moment) }
{
    let shown = checked_to_zone(moment, zone)?;
    Some(assume_zone(PlainDateTime::new(shown.date(), shown.time()), zone))
}

/// Converting a moment to a zone returns it unchanged if it is in the range of zones and already has the zone's offset.
pub fn law_left_as_it_is(moment: OffsetDateTime, zone: &TimeZone<'_>) -> Option<OffsetDateTime>
    ensures { IsInZoneRange moment → HasZoneOffset zone.now moment → result ≡ Some moment }
{
    checked_to_zone(moment, zone)
}

/// A local date and time has only one result in a zone: the contract of `assume_zone` allows no other.
pub fn law_one_answer(clock: PlainDateTime, zone: &TimeZone<'_>) -> Result<OffsetDateTime, NotOne>
    ensures { (other : Result Moment NotOne_) → IsAnswer zone.now clock other → other ≡ result }
{
    assume_zone(clock, zone)
}

/// A text is a suffix of RFC 9557 in at most one way: with one zone or none, and with one list of tags.
pub fn law_one_suffix()
    ensures { OneSuffix }
{}

/// The text that `write_suffix` returns for a zone is a suffix of RFC 9557 with that zone and no tags.
#[tactic(auto, using(crate::proofs::NameLemmas::written_is_suffix))]
pub fn law_written_suffix()
    ensures { WrittenIsSuffix }
{}

/// Each zone name that a suffix of RFC 9557 can have is valid as a path below the folder of zones: no part of it,
/// between slashes, is empty, `.` or `..`.
#[tactic(auto, using(crate::proofs::NameLemmas::names_in_folder))]
pub fn law_names_in_folder()
    ensures { NamesInFolder }
{}

/// A suffix agrees with a moment or is rejected for one reason. The result depends only on the zones, the moment,
/// whether it has a local offset, and the zone and first critical key of the suffix.
#[tactic(auto, using(crate::proofs::FolderLemmas::one_check))]
pub fn law_one_check()
    ensures { OneCheck }
{}
