//! Laws of a folder: each function does nothing, and its contract is the law.
ghost use Rattle.restamp_in_place.specs.Replacing.{NowMayBe, SafeIsOldOrNew};

/// A crash may leave each name with its current file. So what is safe in a crash is safe if the program merely stops.
pub fn law_now()
    ensures { NowMayBe }
{}

/// If the old file was on the disk, and the name is safe in a crash (it has what it had before, or the new file), a
/// crash leaves under the name exactly the old bytes or exactly the new ones.
pub fn law_old_or_new()
    ensures { SafeIsOldOrNew }
{}
