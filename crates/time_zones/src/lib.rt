//! Moments in the local time of named time zones, and the suffixes of timestamps that name one.
#![tactic(auto)]

mod checking;
mod clocks;
mod files;
mod finding;
mod laws;
mod place;
mod spread;
mod suffix;
mod zone_fault;
mod zones;

pub use checking::{SuffixFault, check_suffix};
pub use clocks::{NotOne, assume_zone, checked_to_zone, has_zone_offset, offset_at};
pub use files::{ReadFault, ZoneFiles};
pub use finding::{NamedZone, find_zone, find_zone_in};
pub use jiff_tz::TimeZone;
pub use laws::{
    law_left_as_it_is, law_names_in_folder, law_one_answer, law_one_check, law_one_suffix,
    law_read_back, law_written_suffix,
};
pub use suffix::{Suffixed, ZoneTag, ZoneText, read_suffix, write_suffix};
pub use zone_fault::ZoneFault;
pub use zones::{Zones, find_zones, find_zones_in};
