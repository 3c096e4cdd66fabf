//! Tests of the texts of descriptions, and the example of their page.
ghost use Rattle.std.specs.Prelude.{◌≡◌, map, IfOk};
ghost use Rattle.time_components.specs.Tree.{borrowed_shape, sequence, trees};
ghost use Rattle.time_descriptions.specs.Description.{shape};

use crate::describing::texts::is_text;
use time_components::{BorrowedFormatItem, item};
use time_descriptions::{Description, NoText, description_of, text_of};

/// The description of a sequence of items.
pub fn description_of_items<const N: usize>(
    items: &[BorrowedFormatItem<'_>],
) -> Result<Description<N>, NoText>
    ensures { IfOk result (λ d. shape d ≡ sequence (trees (map borrowed_shape items.now))) }
{
    description_of(&BorrowedFormatItem::Compound(items))
}

#[test]
fn text_of_a_clock(rt: HostRuntime) {
    let items = [item!(Hour12), item!(":"), item!(Minute)];
    let clock = BorrowedFormatItem::Compound(&items);
    assert!(rt; is_text(text_of::<32, _>(&clock), b"[hour repr:12]:[minute]"));
    assert!(rt; description_of_items::<32>(&items).is_ok());
}

// The text of a parsed description.
mod texts {
    use std::alloc::Global;
    use time_components::{BorrowedFormatItem, item};
    use time_descriptions::{DescriptionText, NoText, description_of, parse_owned, text_of};

    // Texts of descriptions, and the canonical text of each: without default modifiers, with one space before each
    // modifier and each list, and in small letters.
    static TEXTS: [(&[u8], &[u8]); 30] = [
        (b"", b""),
        (b"[ year\tpadding:zero ]", b"[year]"),
        (
            b"[YEAR sign:Mandatory  Padding:none]",
            b"[year padding:none sign:mandatory]",
        ),
        (
            b"[year base:iso_week repr:century range:standard]",
            b"[year repr:century base:iso_week range:standard]",
        ),
        (
            b"[year repr:last_two base:iso_week]",
            b"[year repr:last_two base:iso_week]",
        ),
        (b"[month repr:numerical]", b"[month]"),
        (
            b"[month case_sensitive:false repr:long]",
            b"[month repr:long case_sensitive:false]",
        ),
        (b"[month repr:short]", b"[month repr:short]"),
        (b"[day padding:none padding:space]", b"[day padding:space]"),
        (b"[ordinal]", b"[ordinal]"),
        (b"[weekday repr:long]", b"[weekday]"),
        (
            b"[weekday repr:sunday one_indexed:false]",
            b"[weekday repr:sunday one_indexed:false]",
        ),
        (b"[week_number repr:iso]", b"[week_number]"),
        (
            b"[week_number repr:monday padding:none]",
            b"[week_number repr:monday padding:none]",
        ),
        (b"[hour repr:24]:[minute]", b"[hour]:[minute]"),
        (
            b"[hour repr:12 padding:space]",
            b"[hour repr:12 padding:space]",
        ),
        (
            b"[period case:lower case_sensitive:false]",
            b"[period case:lower case_sensitive:false]",
        ),
        (b"[second][subsecond digits:1+]", b"[second][subsecond]"),
        (b"[subsecond digits:9]", b"[subsecond digits:9]"),
        (
            b"[offset_hour sign:mandatory][offset_minute][offset_second]",
            b"[offset_hour sign:mandatory][offset_minute][offset_second]",
        ),
        (
            b"[unix_timestamp sign:mandatory precision:nanosecond]",
            b"[unix_timestamp precision:nanosecond sign:mandatory]",
        ),
        (b"[ignore count:00065535]", b"[ignore count:65535]"),
        (
            b"[end trailing_input:discard]",
            b"[end trailing_input:discard]",
        ),
        (b"]", b"\\]"),
        (b"]]a]", b"]]a]"),
        (b"\\[\\]\\\\\\\\", b"\\[\\]\\\\\\\\"),
        (b"a\\]b", b"a\\]b"),
        (b"[ optional \n [ [day] ] ]", b"[optional [ [day] ]]"),
        (b"[first [][a][[day]]]", b"[first [] [a] [[day]]]"),
        (
            b"[optional [[first [[hour][optional []]] [x]]]]",
            b"[optional [[first [[hour][optional []]] [x]]]]",
        ),
    ];

    /// Whether the text was written, and is this one.
    pub fn is_text<const N: usize>(
        text: Result<DescriptionText<N>, NoText>,
        expected: &[u8],
    ) -> bool {
        match text {
            Ok(text) => text.as_bytes() == expected,
            Err(_) => false,
        }
    }

    // Whether the canonical text of the parsed description is this one.
    fn is_written(alloc: Global, read: &[u8], written: &[u8]) -> bool {
        match parse_owned::<2>(alloc, read) {
            Ok(item) => is_text(text_of::<64, _>(&item), written),
            Err(_) => false,
        }
    }

    #[test]
    fn texts(rt: HostRuntime) {
        for (read, written) in &TEXTS {
            assert!(rt;
                is_written(rt.alloc(), read, written),
                "{}",
                read.escape_ascii()
            );
        }
    }

    // Whether the item's description has this many steps, and fits them.
    fn has_steps(item: &BorrowedFormatItem<'_>, expected: usize) -> bool {
        match description_of::<28, _>(item) {
            Ok(description) => description.steps().len() == expected,
            Err(_) => false,
        }
    }

    // A text fits exactly in a buffer of at least its length.
    #[test]
    fn borrowed_items(rt: HostRuntime) {
        let second = [item!(":"), item!(Second)];
        let seconds = BorrowedFormatItem::Compound(&second);
        let items = [item!(Hour24), BorrowedFormatItem::Optional(&seconds)];
        let clock = BorrowedFormatItem::Compound(&items);
        assert!(rt; is_text(text_of::<28, _>(&clock), b"[hour][optional [:[second]]]"));
        assert!(rt; has_steps(&clock, 4));
    }
}

// Items that no text describes.
mod refused {
    use std::alloc::{AllocError, Global};
    use time_components::{BorrowedFormatItem, OwnedFormatItem, item};
    use time_descriptions::{NoText, is_described, text_of};

    // Whether no text describes the sequence of items.
    fn is_refused(items: &[BorrowedFormatItem<'_>]) -> bool {
        let item = BorrowedFormatItem::Compound(items);
        !is_described(&item) && text_of::<256, _>(&item).err() == Some(NoText::Undescribed)
    }

    // The items of a text are a sequence.
    #[test]
    fn lone_items(rt: HostRuntime) {
        for item in [item!(Day), item!("-")] {
            assert!(rt; text_of::<64, _>(&item).err() == Some(NoText::Undescribed));
        }
    }

    // A literal extends to the next special byte, so two of them would be one.
    #[test]
    fn literals(rt: HostRuntime) {
        for items in [
            [item!("")].as_slice(),
            &[item!("a"), item!("b")],
            &[item!("a[")],
            &[item!("\\]")],
        ] {
            assert!(rt; is_refused(items));
        }
    }

    #[test]
    fn described_items(rt: HostRuntime) {
        for items in [
            [].as_slice(),
            &[item!("a"), item!("["), item!("]"), item!("]]")],
            &[item!("a"), item!(Day), item!("b")],
            &[item!("a]")],
        ] {
            assert!(rt; !is_refused(items));
        }
    }

    fn is_refused_as_option(item: &BorrowedFormatItem<'_>) -> bool {
        is_refused(&[BorrowedFormatItem::Optional(item)])
    }

    fn is_refused_as_choice(items: &[BorrowedFormatItem<'_>]) -> bool {
        is_refused(&[BorrowedFormatItem::First(items)])
    }

    // A closing bracket would end the list that it is in.
    #[test]
    fn lists(rt: HostRuntime) {
        let closing = [item!("a]")];
        let lists = [BorrowedFormatItem::Compound(&closing)];
        assert!(rt; is_refused(&lists));
        assert!(rt; is_refused_as_option(&lists[0]));
        assert!(rt; is_refused_as_choice(&lists));
    }

    // A group has lists, and a choice at least one.
    #[test]
    fn groups(rt: HostRuntime) {
        let days = [item!(Day)];
        assert!(rt; is_refused_as_option(&days[0]));
        assert!(rt; is_refused_as_choice(&days));
        assert!(rt; is_refused_as_choice(&[]));
    }

    // An optional list of the item.
    fn optional(alloc: Global, item: OwnedFormatItem) -> Result<OwnedFormatItem, AllocError> {
        let inner = Box::new(alloc, item)?;
        let items = vec![in alloc; OwnedFormatItem::Optional(inner)]?;
        Ok(OwnedFormatItem::Compound(items))
    }

    // Nested optional lists.
    fn nested(alloc: Global, levels: usize) -> Result<OwnedFormatItem, AllocError> {
        let mut item = OwnedFormatItem::Compound(Vec::new(alloc));
        for _ in 0..levels {
            item = optional(alloc, item)?;
        }
        Ok(item)
    }

    // Whether optional lists nested this deep have a text, or no text for that reason.
    fn has_outcome(alloc: Global, levels: usize, reason: Option<NoText>) -> bool {
        match nested(alloc, levels) {
            Ok(item) => text_of::<128, _>(&item).err() == reason,
            Err(_) => false,
        }
    }

    // Lists may be nested eight deep.
    #[test]
    fn deep_lists(rt: HostRuntime) {
        assert!(rt; has_outcome(rt.alloc(), 8, None));
        assert!(rt; has_outcome(rt.alloc(), 9, Some(NoText::Undescribed)));
    }

    #[test]
    fn room(rt: HostRuntime) {
        let items = [item!(Day), item!("-"), item!(Hour12)];
        let item = BorrowedFormatItem::Compound(&items);
        // `[day]-[hour repr:12]`
        assert!(rt; text_of::<20, _>(&item).is_ok());
        assert!(rt; text_of::<19, _>(&item).err() == Some(NoText::TooLong));
    }
}
