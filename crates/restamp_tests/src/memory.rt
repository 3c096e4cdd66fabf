//! A folder in memory.
ghost use Rattle.std.specs.Prelude.{◌≡◌, ◌∷◌, [], IfErr, IfOk, Some, string_bytes};
ghost use Rattle.std.specs.IoError.{error_kind};
ghost use Rattle.restamp_in_place.specs.Replacing.{Tries};
ghost use Rattle.restamp_tests.specs.Memory.{event_of, events_of, is_unused};
ghost use Rattle.std.specs.Option.{option_map};
ghost use Rattle.restamp_in_place.specs.Replacing as model;

use crate::memory::event::{Event, is_unused, leads, stored};
use crate::memory::page::Page;
use byte_streams::Counted;
use restamp_in_place::{Folder, Original};
use std::alloc::Global;
use std::cell::Cell;
use std::collections::VecDeque;
use std::io;
use std::io::ErrorKind;

/// The kind of the error of a call that fails after it took effect.
pub const LATE: ErrorKind = ErrorKind::TimedOut;

/// Which calls of a folder fail.
#[derive(Clone, Copy, Debug)]
pub struct Faults {
    /// The number of the first call that fails, from 0.
    pub first: u64,
    /// How many calls fail from there on.
    pub count: u64,
    /// Whether they take effect before they fail, if they have an effect. The kind of the error is then `LATE`.
    pub is_late: bool,
    /// The kind of the error of a call that fails without taking effect, and of a write that fails.
    pub kind: ErrorKind,
    /// How many writes to each new file succeed. Each later one fails.
    pub writes: u64,
    /// Whether another program writes the file before it is checked again: then `is_at` returns false.
    pub is_changed: bool,
}

/// A folder in memory, which records each event in it.
#[derive(Drop)]
pub struct Memory {
    alloc: Global,
    // The events, the last first.
    events: Vec<Event>,
    // How many calls were made.
    calls: Cell<u64>,
    faults: Faults,
}

impl Memory {
    /// An empty folder, of whose calls and writes those of `faults` fail.
    pub fn new(alloc: Global, faults: Faults) -> Memory
        ensures { result.events.items ≡ [] }
    {
        Memory {
            alloc,
            events: Vec::new(alloc),
            calls: Cell::new(0),
            faults,
        }
    }

    /// The events so far, the last first.
    pub fn events(&self) -> &[Event]
        ensures { result.now ≡ self.now.events.items }
    {
        self.events.as_slice()
    }

    /// How many calls of [`Folder`] were made so far, also those that failed.
    pub fn calls(&self) -> u64 {
        self.calls.get()
    }

    // Counts a call, and returns whether it is to fail after it takes effect. It is an error if it is to fail without
    // taking effect.
    fn begin(&self) -> io::Result<bool> {
        let call = self.calls.get();
        self.calls.set(call.saturating_add(1));
        let Faults {
            first,
            count,
            is_late,
            kind,
            ..
        } = self.faults;
        let fails = call >= first && call - first < count;
        if fails && !is_late {
            return Err(io::Error::from(kind));
        }
        Ok(fails)
    }

    /// Records an event. It is an error if memory is short, or after the event if `is_late`.
    pub fn note(&mut self, event: Event, is_late: bool) -> io::Result<()>
        ensures noted { Tries (Some (events_of self.old.events.items)) (Some (events_of self.new.events.items)) result
            (λ _ more. more ≡ event_of event ∷ []) }
        ensures kept { IfErr result (λ e. error_kind e ≡ ErrorKind.AlreadyExists → self.new.events.items ≡ self.old.events.items) }
    {
        self.events.insert(0, event)?;
        end(is_late)
    }

    // A copy of the name.
    fn copy(&self, name: &str) -> io::Result<String>
        ensures { IfOk result (λ copy. string_bytes copy ≡ name.now) }
    {
        Ok(String::from_str(self.alloc, name)?)
    }

    // Records both events, or neither. It is an error if memory is short, or after the events if `is_late`.
    fn note_both(&mut self, first: Event, last: Event, is_late: bool) -> io::Result<()>
        ensures { Tries (Some (events_of self.old.events.items)) (Some (events_of self.new.events.items)) result
            (λ _ more. more ≡ event_of last ∷ event_of first ∷ []) }
    {
        self.events.reserve(2)?;
        self.events.insert(0, first)?;
        self.events.insert(0, last)?;
        end(is_late)
    }
}

// Ends a call that took effect: with an error of the kind `LATE` if it is to fail late.
fn end(is_late: bool) -> io::Result<()>
    ensures { IfErr result (λ e. error_kind e ≡ ErrorKind.TimedOut) }
{
    if is_late {
        Err(io::Error::from(LATE))
    } else {
        Ok(())
    }
}

// The state of a file of that number and length in bytes. The rest of the state is constant.
fn original_of(number: u64, length: usize) -> Original
    ensures { result.number ≡ number }
{
    Original {
        number,
        device: 1,
        length: length as u64,
        written: (0, 0),
        mode: 0o644,
        owner: 0,
        group: 0,
    }
}

// The error of a name that leads to no file, or to a file without bytes on the disk.
fn not_found() -> io::Error {
    io::Error::from(ErrorKind::NotFound)
}

impl Folder for Memory {
    ghost use Rattle.std.specs.Prelude.{Some};
    ghost use Rattle.restamp_tests.specs.Memory.{events_of};

    type Old = Counted<VecDeque<u8>>;

    type New = Counted<Page>;

    ghost events = { λ memory. Some (events_of memory.events.items) };

    fn open(&self, name: &str) -> io::Result<(Self::Old, Original)> {
        let is_late = self.begin()?;
        let Some(number) = leads(self.events.as_slice(), name) else {
            return Err(not_found());
        };
        let Some(bytes) = stored(self.events.as_slice(), number) else {
            return Err(not_found());
        };
        let copy = Vec::from_slice(self.alloc, bytes)?;
        end(is_late)?;
        let original = original_of(number, bytes.len());
        Ok((Counted::new(VecDeque::from(copy)), original))
    }

    fn is_at(&self, name: &str, original: &Original) -> io::Result<bool> {
        end(self.begin()?)?;
        match leads(self.events.as_slice(), name) {
            Some(number) => Ok(number == original.number && !self.faults.is_changed),
            None => Ok(false),
        }
    }

    fn create(&mut self, name: &str) -> io::Result<Self::New> {
        let is_late = self.begin()?;
        if leads(self.events.as_slice(), name).is_some() {
            return Err(io::Error::from(ErrorKind::AlreadyExists));
        }
        let number = self.events.len() as u64;
        if !is_unused(self.events.as_slice(), number) {
            return Err(io::Error::from(ErrorKind::Other));
        }
        let name = self.copy(name)?;
        self.note(Event::Leads(name, Some(number)), is_late)?;
        let page = Page::new(self.alloc, self.faults.writes, self.faults.kind);
        Ok(Counted::new(page))
    }

    fn store(&mut self, name: &str, new: Self::New, _original: &Original) -> io::Result<()> {
        let is_late = self.begin()?;
        let Some(number) = leads(self.events.as_slice(), name) else {
            return Err(not_found());
        };
        let (page, _) = new.into_parts();
        self.note(Event::Stored(number, page.bytes), is_late)
    }

    fn link(&mut self, name: &str, second: &str) -> io::Result<()> {
        let is_late = self.begin()?;
        let Some(number) = leads(self.events.as_slice(), name) else {
            return Err(not_found());
        };
        if leads(self.events.as_slice(), second).is_some() {
            return Err(io::Error::from(ErrorKind::AlreadyExists));
        }
        let second = self.copy(second)?;
        self.note(Event::Leads(second, Some(number)), is_late)
    }

    fn rename(&mut self, name: &str, onto: &str) -> io::Result<()> {
        let is_late = self.begin()?;
        let Some(number) = leads(self.events.as_slice(), name) else {
            return Err(not_found());
        };
        let onto = self.copy(onto)?;
        let name = self.copy(name)?;
        self.note_both(
            Event::Leads(onto, Some(number)),
            Event::Leads(name, None),
            is_late,
        )
    }

    fn remove(&mut self, name: &str) -> io::Result<()> {
        let is_late = self.begin()?;
        let name = self.copy(name)?;
        self.note(Event::Leads(name, None), is_late)
    }

    fn sync(&mut self) -> io::Result<()> {
        let is_late = self.begin()?;
        self.note(Event::Synced, is_late)
    }
}

// The events in a folder in memory.
pub mod event {
    /// An event in a folder.
    #[derive(Debug, Drop)]
    pub enum Event {
        /// A name leads to the file of that number, or to no file.
        Leads(String, Option<u64>),
        /// The file of that number has those bytes, on the disk.
        Stored(u64, Vec<u8>),
        /// The names, and which files they lead to, are on the disk.
        Synced,
    }

    /// The number of the file that a name leads to after the events, of which the last comes first. `None` if it leads
    /// to no file.
    pub fn leads(events: &[Event], name: &str) -> Option<u64>
        ensures { result ≡ model.leads (events_of events.now) name.now }
    {
        let mut left = events;
        while let [event, rest @ ..] = left {
            match event {
                Event::Leads(other, file) => {
                    if other.as_str() == name {
                        return *file;
                    }
                }
                Event::Stored(..) | Event::Synced => {}
            }
            left = rest;
        }
        None
    }

    /// The bytes that a file has on the disk after the events, of which the last comes first. `None` if none were
    /// stored.
    pub fn stored(events: &[Event], number: u64) -> Option<&[u8]>
        ensures { option_map (λ bytes. bytes.now) result ≡ model.stored (events_of events.now) number }
    {
        let mut left = events;
        while let [event, rest @ ..] = left {
            match event {
                Event::Stored(file, bytes) => {
                    if *file == number {
                        return Some(bytes.as_slice());
                    }
                }
                Event::Leads(..) | Event::Synced => {}
            }
            left = rest;
        }
        None
    }

    /// Whether no event names the file of that number.
    pub fn is_unused(events: &[Event], number: u64) -> bool
        ensures { result ≡ is_unused (events_of events.now) number }
    {
        let mut left = events;
        while let [event, rest @ ..] = left {
            match event {
                Event::Leads(_, Some(file)) | Event::Stored(file, _) => {
                    if *file == number {
                        return false;
                    }
                }
                Event::Leads(_, None) | Event::Synced => {}
            }
            left = rest;
        }
        true
    }
}

// A new file of a folder in memory, while it is written.
pub mod page {
    use std::alloc::Global;
    use std::io;
    use std::io::{ErrorKind, Write};

    /// Stores what is written, until a write fails. Each later one fails too.
    #[derive(Debug, Drop)]
    pub struct Page {
        pub(crate) bytes: Vec<u8>,
        // How many more writes succeed.
        left: u64,
        // The kind of the error of each later write.
        kind: ErrorKind,
    }

    impl Page {
        /// No bytes yet. After `writes` writes that succeed, each write fails with an error of that kind.
        pub fn new(alloc: Global, writes: u64, kind: ErrorKind) -> Page
            ensures { result.bytes.items ≡ [] }
        {
            Page {
                bytes: Vec::new(alloc),
                left: writes,
                kind,
            }
        }
    }

    impl Write for Page {
        ghost contents = { λ page. Some page.bytes.items };

        fn write(&mut self, buf: &[u8]) -> io::Result<usize> {
            if self.left == 0 {
                return Err(io::Error::from(self.kind));
            }
            self.left -= 1;
            self.bytes.write(buf)
        }

        fn flush(&mut self) -> io::Result<()> {
            Ok(())
        }
    }
}
