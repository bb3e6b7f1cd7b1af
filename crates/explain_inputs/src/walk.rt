//! A walk over the bytes of a JSON text.

/// What goes over the bytes of a document: how deep it is in lists and objects, and whether it is in a string.
#[derive(Clone, Copy)]
pub(crate) struct Walk {
    depth: usize,
    is_in_string: bool,
    is_escaped: bool,
}

impl Walk {
    /// Before the first byte.
    pub(crate) fn new() -> Walk {
        Walk {
            depth: 0,
            is_in_string: false,
            is_escaped: false,
        }
    }

    /// How many lists and objects are open.
    pub(crate) fn depth(self) -> usize {
        self.depth
    }

    /// Whether a string is open.
    pub(crate) fn is_in_string(self) -> bool {
        self.is_in_string
    }

    /// After one more byte.
    pub(crate) fn after(self, byte: u8) -> Walk {
        if self.is_in_string {
            return Walk {
                depth: self.depth,
                is_in_string: self.is_escaped || byte != b'"',
                is_escaped: !self.is_escaped && byte == b'\\',
            };
        }
        let depth = match byte {
            b'{' | b'[' => self.depth.saturating_add(1),
            b'}' | b']' => self.depth.saturating_sub(1),
            _ => self.depth,
        };
        Walk {
            depth,
            is_in_string: byte == b'"',
            is_escaped: false,
        }
    }
}
