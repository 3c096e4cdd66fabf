//! The texts of statuses.
ghost use Rattle.std.specs.Prelude.{◌≡◌, ◌≤◌, length};
ghost use Rattle.pelzaune_ffi.specs.Status as Status;

// The name of the component with this number, 1 to 23; an empty text for any other number.
fn component_name(number: u32) -> &'static str
    ensures name { result.now ≡ Status.component_name number }
    ensures bound { length result.now ≤ 16 }
{
    match number {
        1 => "year",
        2 => "month",
        3 => "day",
        4 => "ordinal",
        5 => "weekday",
        6 => "week",
        7 => "week number",
        8 => "hour",
        9 => "minute",
        10 => "second",
        11 => "nanosecond",
        12 => "subsecond",
        13 => "period",
        14 => "offset hour",
        15 => "offset minute",
        16 => "offset second",
        17 => "hours",
        18 => "minutes",
        19 => "seconds",
        20 => "timestamp",
        21 => "unix_timestamp",
        22 => "separator",
        23 => "ignore",
        _ => "",
    }
}

// The error text for a missing component of this number (0: not enough information), in three pieces to be joined.
fn missing_pieces(number: u32) -> [&'static str; 3]
    ensures text { Status.text_of result ≡ Status.missing_text number }
    ensures bound { length (Status.missing_text number) ≤ 128 }
{
    match number {
        0 => [
            "the `Parsed` struct did not include enough information",
            " to construct the type",
            "",
        ],
        13 => ["missing ", "AM or PM", ""],
        14 => ["missing ", "offset", ""],
        _ => ["missing ", component_name(number), ""],
    }
}

/// The text of a status, in three pieces that are to be joined. The status is its kind plus 256 times the number of the
/// component that the text names (0 for none). All pieces are empty for the kind 0 or an unknown kind, above 19. A text
/// that names a component has an empty name for a number outside 1 to 23.
pub fn pieces_of(status: u32) -> [&'static str; 3]
    ensures text { Status.text_of result ≡ Status.status_text status }
    ensures bound { length (Status.status_text status) ≤ 128 }
{
    let name = component_name(status / 256);
    match status % 256 {
        1 => ["a character literal was not valid", "", ""],
        2 => ["the '", name, "' component could not be parsed"],
        3 => [
            "unexpected trailing characters; the end of input was expected",
            "",
            "",
        ],
        4 => missing_pieces(status / 256),
        5 => ["", name, " is out of range"],
        6 => ["", name, " is out of range for the other components"],
        7 => [
            "the instant is out of range of 64 bits of nanoseconds",
            "",
            "",
        ],
        8 => ["no format has that number", "", ""],
        9 => ["an opening bracket is not closed", "", ""],
        10 => ["no component has that name", "", ""],
        11 => ["the component has no such modifier", "", ""],
        12 => ["brackets have no component name", "", ""],
        13 => ["a modifier is missing", "", ""],
        14 => ["something else is expected", "", ""],
        15 => ["that is not supported in a description", "", ""],
        16 => ["the description is too long", "", ""],
        17 => ["no syntax of descriptions has that number", "", ""],
        18 => ["the '", name, "' component has no text in that format"],
        19 => ["the text has more than 1024 bytes", "", ""],
        _ => ["", "", ""],
    }
}

/// Writes bytes over the start of the buffer, truncated to the buffer's length. The rest of the buffer is unchanged.
pub fn lay_bytes(bytes: &[u8], buffer: &mut [u8])
    ensures { buffer.new ≡ Status.laid_over bytes.now buffer.old }
{
    let count = bytes.len().min(buffer.len());
    buffer[..count].copy_from_slice(&bytes[..count]);
}

/// Writes the pieces one after another over the start of the buffer, truncated to the buffer's length. The rest of the
/// buffer is unchanged.
pub fn lay(pieces: &[&str], buffer: &mut [u8])
    ensures { buffer.new ≡ Status.laid_over (Status.text_of pieces.now) buffer.old }
{
    let [piece, others @ ..] = pieces else {
        return;
    };
    let bytes = piece.as_bytes();
    if buffer.len() <= bytes.len() {
        let count = buffer.len();
        buffer.copy_from_slice(&bytes[..count]);
        return;
    }
    let (front, back) = buffer.split_at_mut(bytes.len());
    front.copy_from_slice(bytes);
    lay(others, back);
}
