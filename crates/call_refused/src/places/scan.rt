//! The keys of a TOML document, byte by byte, with the place at which each stands.

ghost use Rattle.std.specs.Prelude.{◌<◌, length};

use crate::places::counters::Counters;
use crate::places::path::{leads_to, push_index, shown};
use base_memory::Memory;
use std::alloc::Global;

/// What the next byte is of.
#[derive(Clone, Copy, Drop)]
enum State {
    /// A key, or what stands before one.
    Key,
    /// A key within this quote.
    QuotedKey(u8),
    /// The header of a table.
    Header,
    /// A value, or what stands behind it.
    Value,
    /// A text within this quote.
    Text(u8),
    /// A text over several lines, within three of this quote.
    LongText(u8),
    /// A comment.
    Comment,
}

/// An array that is open, with the number of its item, or an inline table; and how many bytes the
/// path has without it.
#[derive(Clone, Copy, Drop)]
struct Open {
    before: usize,
    item: Option<u32>,
}

/// The document as far as it was read, and the key in it that leads furthest to the path that is
/// looked for.
#[derive(Drop)]
pub struct Scan {
    state: State,
    // The path of what is read, as `terminal[0].z2.pickup`, and how many bytes of it the table has.
    path: Vec<u8>,
    table: usize,
    open: Vec<Open>,
    counters: Counters,
    // Where the key or the header begins; whether it, or the item of an array, is still to begin.
    start: usize,
    is_before: bool,
    // Whether the header is that of an array of tables; whether a backslash stands before the byte;
    // how many bytes are passed over.
    is_array: bool,
    is_escaped: bool,
    skipped: u32,
    // The key that leads furthest: where it stands, and how many bytes of the path it has.
    place: usize,
    depth: usize,
}

impl Scan {
    /// Before the first byte.
    pub fn new(alloc: Global) -> Scan {
        Scan {
            state: State::Key,
            path: Vec::new(alloc),
            table: 0,
            open: Vec::new(alloc),
            counters: Counters::new(alloc),
            start: 0,
            is_before: true,
            is_array: false,
            is_escaped: false,
            skipped: 0,
            place: 0,
            depth: 0,
        }
    }

    /// Where the key stands that leads furthest to the path.
    pub fn place(&self) -> usize {
        self.place
    }

    /// How many bytes of the path it has.
    pub fn depth(&self) -> usize {
        self.depth
    }

    /// What closes the arrays and the inline tables that are open, the innermost first, on a line of its own.
    pub fn closing(&self, alloc: Global) -> Result<Vec<u8>, Memory> {
        let mut text = Vec::new(alloc);
        text.push(b'\n')?;
        for i in 0..self.open.len() {
            let open = self.open[self.open.len() - 1 - i];
            text.push(if open.item.is_some() { b']' } else { b'}' })?;
        }
        Ok(text)
    }

    /// Reads the byte at this place, where a key of this path is looked for.
    pub fn read(
        &mut self,
        alloc: Global,
        wanted: &[u8],
        bytes: &[u8],
        at: usize,
    ) -> Result<(), Memory>
        requires { at < length bytes.now }
    {
        if self.skipped > 0 {
            self.skipped -= 1;
            return Ok(());
        }
        let byte = bytes[at];
        match self.state {
            State::Key => self.read_key(wanted, byte, at),
            State::QuotedKey(quote) => self.read_quoted(quote, byte),
            State::Header => self.read_header(alloc, wanted, byte),
            State::Value => self.read_value(wanted, bytes, at),
            State::Text(_) | State::LongText(_) | State::Comment => {
                self.pass(bytes, at);
                Ok(())
            }
        }
    }

    // Marks the place, where the path leads further than any before it.
    fn mark(&mut self, wanted: &[u8], at: usize) {
        if self.depth < self.path.len() && leads_to(&self.path, wanted) {
            self.place = at;
            self.depth = self.path.len();
        }
    }

    // ---- keys

    fn read_key(&mut self, wanted: &[u8], byte: u8, at: usize) -> Result<(), Memory> {
        match byte {
            b' ' | b'\t' | b'\r' | b'\n' | b',' => Ok(()),
            b'"' | b'\'' => {
                self.state = State::QuotedKey(byte);
                self.begin_key(at)
            }
            b'=' | b'#' | b'[' | b'}' => {
                self.leave_key(wanted, byte, at);
                Ok(())
            }
            _ => {
                self.begin_key(at)?;
                self.push(byte)
            }
        }
    }

    // The dot before the first byte of a key.
    fn begin_key(&mut self, at: usize) -> Result<(), Memory> {
        if self.is_before {
            self.is_before = false;
            self.start = at;
            if !self.path.is_empty() {
                self.path.push(b'.')?;
            }
        }
        Ok(())
    }

    fn push(&mut self, byte: u8) -> Result<(), Memory> {
        self.path.push(shown(byte))?;
        Ok(())
    }

    fn leave_key(&mut self, wanted: &[u8], byte: u8, at: usize) {
        match byte {
            b'=' => {
                self.mark(wanted, self.start);
                self.state = State::Value;
            }
            b'[' => {
                self.path.clear();
                self.start = at;
                self.is_before = true;
                self.is_array = false;
                self.state = State::Header;
            }
            b'#' => self.state = State::Comment,
            _ => self.close(),
        }
    }

    fn read_quoted(&mut self, quote: u8, byte: u8) -> Result<(), Memory> {
        if byte == quote {
            self.state = State::Key;
            Ok(())
        } else {
            self.push(byte)
        }
    }

    // ---- headers

    fn read_header(&mut self, alloc: Global, wanted: &[u8], byte: u8) -> Result<(), Memory> {
        match byte {
            b' ' | b'\t' | b'"' | b'\'' => Ok(()),
            b'[' => {
                self.is_array = self.is_before;
                Ok(())
            }
            b'.' => {
                self.push_latest()?;
                self.push(byte)
            }
            b']' => self.leave_header(alloc, wanted),
            _ => {
                self.is_before = false;
                self.push(byte)
            }
        }
    }

    // The number of the latest table, where the path is that of an array of tables.
    fn push_latest(&mut self) -> Result<(), Memory> {
        match self.counters.latest(&self.path) {
            Some(number) => push_index(&mut self.path, number),
            None => Ok(()),
        }
    }

    fn leave_header(&mut self, alloc: Global, wanted: &[u8]) -> Result<(), Memory> {
        if self.is_array {
            let number = self.counters.next(alloc, &self.path)?;
            push_index(&mut self.path, number)?;
        } else {
            self.push_latest()?;
        }
        self.table = self.path.len();
        self.mark(wanted, self.start);
        self.is_before = false;
        self.state = State::Value;
        Ok(())
    }

    // ---- values

    fn read_value(&mut self, wanted: &[u8], bytes: &[u8], at: usize) -> Result<(), Memory>
        requires { at < length bytes.now }
    {
        match bytes[at] {
            b' ' | b'\t' | b'\r' => Ok(()),
            b'\n' => {
                self.end_line();
                Ok(())
            }
            b',' => self.next_item(),
            b']' | b'}' => {
                self.close();
                Ok(())
            }
            b'#' => {
                self.state = State::Comment;
                Ok(())
            }
            _ => self.begin_value(wanted, bytes, at),
        }
    }

    // A line that ends within an array goes on.
    fn end_line(&mut self) {
        if self.open.is_empty() {
            self.path.truncate(self.table);
            self.is_before = true;
            self.state = State::Key;
        } else {
            self.state = State::Value;
        }
    }

    // Behind a comma: the next item of an array, or the next key of an inline table.
    fn next_item(&mut self) -> Result<(), Memory> {
        let Some(open) = self.open.pop() else {
            return Ok(());
        };
        self.path.truncate(open.before);
        self.enter(open.before, open.item.map(|item| item.saturating_add(1)))
    }

    // Enters an array at this item, or an inline table.
    fn enter(&mut self, before: usize, item: Option<u32>) -> Result<(), Memory> {
        self.is_before = true;
        self.open.push(Open { before, item })?;
        match item {
            Some(number) => push_index(&mut self.path, number),
            None => {
                self.state = State::Key;
                Ok(())
            }
        }
    }

    fn close(&mut self) {
        if let Some(open) = self.open.pop() {
            self.path.truncate(open.before);
        }
        self.is_before = false;
        self.state = State::Value;
    }

    fn begin_value(&mut self, wanted: &[u8], bytes: &[u8], at: usize) -> Result<(), Memory>
        requires { at < length bytes.now }
    {
        if self.is_before {
            self.is_before = false;
            self.mark(wanted, at);
        }
        let before = self.path.len();
        match bytes[at] {
            b'[' => self.enter(before, Some(0)),
            b'{' => self.enter(before, None),
            b'"' | b'\'' => {
                self.begin_text(bytes, at);
                Ok(())
            }
            _ => Ok(()),
        }
    }

    // ---- texts and comments

    fn begin_text(&mut self, bytes: &[u8], at: usize)
        requires { at < length bytes.now }
    {
        let quote = bytes[at];
        self.is_escaped = false;
        if is_threefold(quote, bytes, at) {
            self.skipped = 2;
            self.state = State::LongText(quote);
        } else {
            self.state = State::Text(quote);
        }
    }

    // Passes over a byte of a text or a comment.
    fn pass(&mut self, bytes: &[u8], at: usize)
        requires { at < length bytes.now }
    {
        let byte = bytes[at];
        match self.state {
            State::Text(quote) if byte == quote && !self.is_escaped => self.state = State::Value,
            State::LongText(quote) if is_threefold(quote, bytes, at) && !self.is_escaped => {
                self.skipped = 2;
                self.state = State::Value;
            }
            State::Text(b'"') | State::LongText(b'"') => {
                self.is_escaped = byte == b'\\' && !self.is_escaped;
            }
            State::Comment if byte == b'\n' => self.end_line(),
            _ => {}
        }
    }
}

// Whether three of the quote stand there.
fn is_threefold(quote: u8, bytes: &[u8], at: usize) -> bool
    requires { at < length bytes.now }
{
    bytes[at..].starts_with(&[quote, quote, quote])
}
