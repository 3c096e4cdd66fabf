//! Items that count how often each is inspected.
ghost use Rattle.time_tests_records.specs.Inspected.{inspected_shape};

use std::cell::Cell;
use time_components::{Component, Inspect, Node};

/// An item that counts how often it is inspected.
#[derive(Drop)]
pub enum Inspected<'b> {
    /// A literal of these bytes.
    Literal(&'b Cell<u32>, &'b [u8]),
    /// A component.
    Component(&'b Cell<u32>, Component),
    /// A sequence of items.
    List(&'b Cell<u32>, &'b [Inspected<'b>]),
}

fn count_one(count: &Cell<u32>) {
    count.set(count.get().saturating_add(1));
}

impl Inspect for Inspected<'_> {
    ghost shape = { inspected_shape };

    fn node(&self) -> Node<'_, Self> {
        match self {
            Inspected::Literal(count, text) => {
                count_one(count);
                Node::Literal(text)
            }
            Inspected::Component(count, component) => {
                count_one(count);
                Node::Component(component)
            }
            Inspected::List(count, items) => {
                count_one(count);
                Node::List(items)
            }
        }
    }
}
