//! Where the entries of objects begin in the bytes of a delivery.

ghost use Rattle.std.specs.Prelude.{◌≡◌, ◌+◌, ◌<◌, ◌^◌, IfOk};
ghost use Rattle.explain_notes.specs.Places.{begins_character};
ghost use Rattle.report_forms.specs.Places.{scan_start, place_after, depth_after, scan_after, begins_list, begins_entry, entry_places};

use std::alloc::{AllocError, Global};

/// Where the entry of an object begins.
#[derive(Clone, Copy)]
pub struct EntryPlace {
    /// In bytes, from 0.
    pub offset: usize,
    /// The line, from 1.
    pub line: usize,
    /// The column in characters, from 1.
    pub column: usize,
}

/// Where a document begins.
pub(crate) const FIRST_PLACE: EntryPlace = EntryPlace {
    offset: 0,
    line: 1,
    column: 1,
};

/// How far a document is gone over.
#[derive(Clone, Copy)]
struct Scan {
    /// The place of the next byte.
    place: EntryPlace,
    /// How many lists and objects are open.
    depth: usize,
    /// Whether a string is open.
    is_in_string: bool,
    /// Whether the next byte of the string is escaped.
    is_escaped: bool,
}

/// Whether a character of UTF-8 begins with this byte.
fn begins_character(byte: u8) -> bool
    ensures { result ≡ begins_character byte }
{
    byte < 128 || 192 <= byte
}

impl EntryPlace {
    /// The place of the byte after this one.
    fn after(self, byte: u8) -> EntryPlace
        requires offset { self.offset + 1 < 2 ^ 64 }
        requires line { self.line + 1 < 2 ^ 64 }
        requires column { self.column + 1 < 2 ^ 64 }
        ensures { result ≡ place_after self byte }
    {
        let offset = self.offset + 1;
        if byte == b'\n' {
            return EntryPlace {
                offset,
                line: self.line + 1,
                column: 1,
            };
        }
        EntryPlace {
            offset,
            line: self.line,
            column: if begins_character(byte) {
                self.column + 1
            } else {
                self.column
            },
        }
    }
}

impl Scan {
    /// Before the first byte.
    fn start() -> Scan
        ensures { result ≡ scan_start }
    {
        Scan {
            place: FIRST_PLACE,
            depth: 0,
            is_in_string: false,
            is_escaped: false,
        }
    }

    /// Whether the list of entries begins with this byte.
    fn begins_list(self, byte: u8) -> bool
        ensures { result ≡ begins_list self byte }
    {
        !self.is_in_string && self.depth == 1 && byte == b'['
    }

    /// Whether an entry begins with this byte.
    fn begins_entry(self, byte: u8) -> bool
        ensures { result ≡ begins_entry self byte }
    {
        !self.is_in_string && self.depth == 2 && byte == b'{'
    }

    /// How many lists and objects are open after one more byte, which is in no string.
    fn depth_after(self, byte: u8) -> usize
        requires { self.depth + 1 < 2 ^ 64 }
        ensures { result ≡ depth_after self.depth byte }
    {
        match byte {
            b'{' | b'[' => self.depth + 1,
            b'}' | b']' => self.depth.saturating_sub(1),
            _ => self.depth,
        }
    }

    /// After one more byte.
    fn after(self, byte: u8) -> Scan
        requires offset { self.place.offset + 1 < 2 ^ 64 }
        requires line { self.place.line + 1 < 2 ^ 64 }
        requires column { self.place.column + 1 < 2 ^ 64 }
        requires depth { self.depth + 1 < 2 ^ 64 }
        ensures { result ≡ scan_after self byte }
    {
        let place = self.place.after(byte);
        if self.is_in_string {
            return Scan {
                place,
                depth: self.depth,
                is_in_string: self.is_escaped || byte != b'"',
                is_escaped: !self.is_escaped && byte == b'\\',
            };
        }
        Scan {
            place,
            depth: self.depth_after(byte),
            is_in_string: byte == b'"',
            is_escaped: false,
        }
    }
}

/// Where the entry of each object of a delivery begins, in their order.
pub fn entry_places(alloc: Global, bytes: &[u8]) -> Result<Vec<EntryPlace>, AllocError>
    ensures { IfOk result (λ v. v.items ≡ entry_places bytes.now) }
{
    let mut places = Vec::new(alloc);
    let mut scan = Scan::start();
    'bytes: for byte in bytes {
        if scan.begins_list(*byte) {
            places.clear();
        } else if scan.begins_entry(*byte) {
            places.push(scan.place)?;
        }
        scan = scan.after(*byte);
    }
    Ok(places)
}
