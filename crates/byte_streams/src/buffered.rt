//! A buffered sink.
ghost use Rattle.std.specs.Io.KnownBytes.{Appends, Keeps, append_known};
ghost use Rattle.std.specs.Prelude.{◌≡◌, ◌≤◌, ◌++◌, [], length, take, drop, IfSome, OnOk};
ghost use Rattle.byte_streams.specs.Faults.{HasCause};

mod fast;

use crate::buffer::ArrayBuf;
use crate::sink::{Sink, Unwritten};
use std::fmt::Display;
use std::io::Write;

// How many bytes fit in the buffer of a sink.
const CAPACITY: usize = 65536;

// How many bytes the array holds into which `write_fmt` first prints a value: more than most printed values have.
const LONGEST: usize = 128;

/// A sink that buffers up to 65536 bytes in an array. [`flush_buffer`](BufferedSink::flush_buffer) writes them to the
/// wrapped sink. So does a write of bytes that don't fit after them in the array, and a `write_fmt` of a text of more
/// than 128 bytes. `flush` doesn't write them, and dropping this value discards them. It allocates nothing.
#[derive(Drop)]
pub struct BufferedSink<W> {
    /// The sink that the buffered bytes are written to.
    pub sink: W,
    pub(crate) buffer: ArrayBuf<CAPACITY>,
}

impl<W> BufferedSink<W> {
    /// Wraps a sink, with an empty buffer.
    pub fn new(sink: W) -> BufferedSink<W>
        ensures sink { result.sink ≡ sink }
        ensures none { result.buffer.items ≡ [] }
    {
        BufferedSink {
            sink,
            buffer: ArrayBuf::new(),
        }
    }

    /// The wrapped sink. The buffered bytes are dropped without being written.
    pub fn into_sink(self) -> W
        ensures { result ≡ self.sink }
    {
        let BufferedSink { sink, buffer: _ } = self;
        sink
    }

    /// Drops the buffered bytes without writing them.
    pub fn clear_buffer(&mut self)
        ensures sink { self.new.sink ≡ self.old.sink }
        ensures none { self.new.buffer.items ≡ [] }
    {
        self.buffer.clear();
    }
}

impl<W: Sink> BufferedSink<W> {
    /// Writes the buffered bytes to the sink, and empties the buffer. Doesn't flush the sink. After an error all bytes
    /// are still buffered, although some may have been written.
    #[inline(never)]
    pub fn flush_buffer(&mut self) -> Result<(), Unwritten>
        ensures written { OnOk result (Keeps (append_known (W.contents self.old.sink) self.old.buffer.items) (W.contents self.new.sink)) }
        ensures none { OnOk result (self.new.buffer.items ≡ []) }
        ensures room { OnOk result (self.new.buffer.room ≡ CAPACITY) }
        ensures cause { HasCause result (W.faults self.old.sink) (W.faults self.new.sink) }
        ensures through { W.through self.new.sink ≡ W.through self.old.sink }
    {
        if self.buffer.is_empty() {
            self.buffer.clear();
            return Ok(());
        }
        self.sink.write_all(self.buffer.as_slice())?;
        self.buffer.clear();
        Ok(())
    }

    // Writes the buffered bytes to the sink, and then these bytes, which don't fit even in an empty buffer.
    #[cold]
    #[inline(never)]
    fn write_past(&mut self, bytes: &[u8]) -> Result<(), Unwritten>
        ensures bytes { OnOk result (Appends (append_known (W.contents self.old.sink) self.old.buffer.items)
            (append_known (W.contents self.new.sink) self.new.buffer.items) bytes.now) }
        ensures cause { HasCause result (W.faults self.old.sink) (W.faults self.new.sink) }
        ensures through { W.through self.new.sink ≡ W.through self.old.sink }
    {
        self.flush_buffer()?;
        self.sink.write_all(bytes)
    }

    // Writes the buffered bytes to the sink, and then what `Display` prints of a value.
    #[cold]
    #[inline(never)]
    fn print_past<D: Display + Drop>(&mut self, text: D) -> Result<(), Unwritten>
        ensures bytes { OnOk result (IfSome (D.output text) (Appends (append_known (W.contents self.old.sink) self.old.buffer.items)
            (append_known (W.contents self.new.sink) self.new.buffer.items))) }
        ensures cause { HasCause result (W.faults self.old.sink) (W.faults self.new.sink) }
        ensures through { W.through self.new.sink ≡ W.through self.old.sink }
    {
        self.flush_buffer()?;
        self.sink.write_fmt(text)
    }

    // Writes bytes with a text in place of those from `begin` to before `end`, part by part.
    #[inline(never)]
    fn write_parts(
        &mut self,
        bytes: &[u8],
        begin: usize,
        end: usize,
        text: &[u8],
    ) -> Result<(), Unwritten>
        requires order { begin ≤ end }
        requires within { end ≤ length bytes.now }
        ensures bytes { OnOk result (Appends (append_known (W.contents self.old.sink) self.old.buffer.items)
            (append_known (W.contents self.new.sink) self.new.buffer.items) (take begin bytes.now ++ (text.now ++ drop end bytes.now))) }
        ensures cause { HasCause result (W.faults self.old.sink) (W.faults self.new.sink) }
        ensures through { W.through self.new.sink ≡ W.through self.old.sink }
    {
        self.write_all(&bytes[..begin])?;
        self.write_all(text)?;
        self.write_all(&bytes[end..])
    }

    /// Writes `bytes`, with `text` in place of the bytes from index `begin` to before `end`. Returns an error if a
    /// write to the sink failed; some of the result may then be written or buffered.
    #[inline(always)]
    pub fn write_spliced(
        &mut self,
        bytes: &[u8],
        begin: usize,
        end: usize,
        text: &[u8],
    ) -> Result<(), Unwritten>
        requires order { begin ≤ end }
        requires within { end ≤ length bytes.now }
        ensures bytes { OnOk result (Appends (append_known (W.contents self.old.sink) self.old.buffer.items)
            (append_known (W.contents self.new.sink) self.new.buffer.items) (take begin bytes.now ++ (text.now ++ drop end bytes.now))) }
        ensures cause { HasCause result (W.faults self.old.sink) (W.faults self.new.sink) }
        ensures through { W.through self.new.sink ≡ W.through self.old.sink }
    {
        match fast::splice(&mut self.buffer, bytes, begin, end, text) {
            Some(()) => Ok(()),
            None => self.write_parts(bytes, begin, end, text),
        }
    }
}

impl<W: Sink> Sink for BufferedSink<W> {
    ghost contents = { λ buffered. append_known (W.contents buffered.sink) buffered.buffer.items };

    ghost faults = { λ buffered. W.faults buffered.sink };

    ghost through = { λ buffered. W.through buffered.sink };

    // Writes the buffered bytes first if the new ones don't fit. Bytes longer than the whole buffer aren't buffered.
    // `append` is called at one place only, so that the compiler builds a constant or an array in the buffer itself.
    #[inline(always)]
    fn write_all(&mut self, bytes: &[u8]) -> Result<(), Unwritten> {
        if !self.buffer.has_room(bytes) {
            if CAPACITY < bytes.len() {
                return self.write_past(bytes);
            }
            self.flush_buffer()?;
        }
        self.buffer.append(bytes);
        Ok(())
    }

    // Prints the value into an array first. If that fails, as for a text of more than 128 bytes, writes the buffered
    // bytes, and prints the value to the sink itself.
    fn write_fmt<D: Display>(&mut self, text: D) -> Result<(), Unwritten>
    where
        D: Drop,
    {
        let mut printed = ArrayBuf::<LONGEST>::new();
        match Write::write_fmt(&mut printed, &text) {
            Ok(()) => self.write_all(printed.as_slice()),
            Err(_) => self.print_past(text),
        }
    }

    // Flushes only the sink: a flush must keep the contents, and a failed write of buffered bytes could change them.
    fn flush(&mut self) -> Result<(), Unwritten> {
        self.sink.flush()
    }
}
