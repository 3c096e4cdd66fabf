//! How much of the reason for a rejected timestamp a caller keeps.
ghost use Rattle.std.specs.Prelude.{◌≡◌};
ghost use Rattle.restamp_formats.specs.Reason.{Reason as Reason_, is_local_time_error, seen};

use crate::reason::Reason;

/// A type that holds what a caller keeps of the [`Reason`] for a rejected timestamp: all of it, or a [`Brief`].
///
/// [`parse`](crate::parse), [`parse_dated`](crate::parse_dated), [`parse_in_turn`](crate::parse_in_turn) and
/// [`write_to`](crate::write_to) have such an error. A stream of lines uses [`Brief`], so their results are smaller.
pub trait FromReason: Copy {
    ghost use Rattle.restamp_formats.specs.Reason.{Reason as Reason_, is_local_time_error};

    // Whether the value is what a caller keeps of that reason.
    ghost is_of: { Reason_ → Self → Type 0 };

    /// Builds the value from a reason.
    fn from_reason(reason: Reason) -> Self
        ensures { is_of (seen reason) result };

    /// Whether the reason is `Nonexistent` or `Ambiguous`.
    fn is_local_time_error(self) -> bool
        ensures { (reason : Reason_) → is_of reason self → result ≡ is_local_time_error reason };
}

// Whether the reason is `Nonexistent` or `Ambiguous`.
fn is_local_time_error(reason: Reason) -> bool
    ensures { result ≡ is_local_time_error (seen reason) }
{
    matches!(reason, Reason::Nonexistent | Reason::Ambiguous(_))
}

impl FromReason for Reason {
    ghost use Rattle.restamp_formats.specs.Reason.{seen};

    ghost is_of = { λ reason kept. seen kept ≡ reason };

    #[inline(always)]
    fn from_reason(reason: Reason) -> Reason {
        reason
    }

    #[inline(always)]
    fn is_local_time_error(self) -> bool {
        is_local_time_error(self)
    }
}

/// All that the choice of a default year needs of a [`Reason`]: a bool, true for `Nonexistent` and for `Ambiguous`.
#[derive(Clone, Copy, Debug, PartialEq, Eq)]
pub struct Brief {
    /// Whether the reason is `Nonexistent` or `Ambiguous`.
    pub is_local_time_error: bool,
}

impl FromReason for Brief {
    ghost use Rattle.restamp_formats.specs.Reason.{is_local_time_error};

    ghost is_of = { λ reason kept. kept.is_local_time_error ≡ is_local_time_error reason };

    #[inline(always)]
    fn from_reason(reason: Reason) -> Brief {
        Brief {
            is_local_time_error: is_local_time_error(reason),
        }
    }

    #[inline(always)]
    fn is_local_time_error(self) -> bool {
        self.is_local_time_error
    }
}
