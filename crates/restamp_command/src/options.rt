//! The values of the command line.
ghost use Rattle.std.specs.Prelude.{◌≡◌, unwrap_or, [], codes};
ghost use Rattle.std.specs.Option.{option_map};
ghost use Rattle.clap.specs.Matches.{found_of, first_value};
ghost use Rattle.restamp_command.specs.Options as spec;

use clap::ArgMatches;

/// The values of the command line before they are interpreted: whether each flag is given, and the texts of the other
/// options. If such an option isn't given, its field is the default value, or `None` if the option has no default.
#[derive(Clone, Copy)]
pub struct Options<'m, 'a> {
    /// `--front`.
    pub front: bool,
    /// `--anywhere`.
    pub anywhere: bool,
    /// `--field`.
    pub field: Option<&'a str>,
    /// `--delimiter`; `,` by default.
    pub delimiter: &'a str,
    /// `--blanks`.
    pub blanks: bool,
    /// `--csv`.
    pub csv: bool,
    /// `--between`: the text before the timestamp, and the text after it.
    pub between: Option<(&'a str, &'a str)>,
    /// `--after`.
    pub after: Option<&'a str>,
    /// The first `--from`; `rfc3339` by default.
    pub from: &'a str,
    /// Each `--from`, in order, including the first; only `rfc3339` by default.
    pub formats: Option<&'m [&'a str]>,
    /// `--year`.
    pub year: Option<&'a str>,
    /// `--latest`.
    pub latest: Option<&'a str>,
    /// `--offset`.
    pub offset: Option<&'a str>,
    /// `--in`.
    pub local: Option<&'a str>,
    /// `--fold`.
    pub fold: Option<&'a str>,
    /// `--to`; `rfc3339` by default.
    pub to: &'a str,
    /// `--zone`; `keep` by default.
    pub zone: &'a str,
    /// `--utc`.
    pub utc: bool,
    /// `--digits`; `auto` by default.
    pub digits: &'a str,
    /// `--only`.
    pub only: bool,
    /// `--since`.
    pub since: Option<&'a str>,
    /// `--until`.
    pub until: Option<&'a str>,
    /// `--drop-refused`.
    pub drop_refused: bool,
    /// `--quiet`.
    pub quiet: bool,
    /// `--errors`; `10` by default.
    pub errors: &'a str,
    /// `--color`; `auto` by default.
    pub color: &'a str,
    /// `--strict`.
    pub strict: bool,
    /// `--keep-going`.
    pub keep_going: bool,
    /// The suffix of `--in-place`; the empty text if the option has none.
    pub in_place: Option<&'a str>,
}

// The value of an option that has a default; the empty text if there is no value.
fn text_of<'a>(matches: &ArgMatches<'a>, id: &str) -> &'a str
    ensures { result.now ≡ unwrap_or (first_value (found_of matches.now) id.now) [] }
{
    matches.get_str(id).unwrap_or("")
}

// The two texts of `--between`; `None` unless there are exactly two.
fn between_of<'a>(matches: &ArgMatches<'a>) -> Option<(&'a str, &'a str)>
    ensures { option_map (λ p. (p.0.now, p.1.now)) result
        ≡ spec.pair_of (spec.values_of (found_of matches.now) (codes "between")) }
{
    match matches.get_strs("between") {
        Some([open, close]) => Some((*open, *close)),
        _ => None,
    }
}

// The first value of `--from`; `rfc3339` if there is none.
fn first_format<'a>(matches: &ArgMatches<'a>) -> &'a str
    ensures { result.now ≡ spec.first_format (spec.values_of (found_of matches.now) (codes "from")) }
{
    match matches.get_strs("from") {
        Some([first, ..]) => first,
        _ => "rfc3339",
    }
}

impl<'m, 'a> Options<'m, 'a> {
    /// The values of the options that the command of [`make_command`](crate::make_command) has parsed.
    pub fn of(matches: &'m ArgMatches<'a>) -> Options<'m, 'a>
        ensures { spec.AreGiven (found_of matches.now) result }
    {
        Options {
            front: matches.get_flag("front"),
            anywhere: matches.get_flag("anywhere"),
            field: matches.get_str("field"),
            delimiter: text_of(matches, "delimiter"),
            blanks: matches.get_flag("blanks"),
            csv: matches.get_flag("csv"),
            between: between_of(matches),
            after: matches.get_str("after"),
            from: first_format(matches),
            formats: matches.get_strs("from"),
            year: matches.get_str("year"),
            latest: matches.get_str("latest"),
            offset: matches.get_str("offset"),
            local: matches.get_str("in"),
            fold: matches.get_str("fold"),
            to: text_of(matches, "to"),
            zone: text_of(matches, "zone"),
            utc: matches.get_flag("utc"),
            digits: text_of(matches, "digits"),
            only: matches.get_flag("only"),
            since: matches.get_str("since"),
            until: matches.get_str("until"),
            drop_refused: matches.get_flag("drop-refused"),
            quiet: matches.get_flag("quiet"),
            errors: text_of(matches, "errors"),
            color: text_of(matches, "color"),
            strict: matches.get_flag("strict"),
            keep_going: matches.get_flag("keep-going"),
            in_place: matches.get_str("in-place"),
        }
    }
}
