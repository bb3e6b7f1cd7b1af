//! Texts where some bytes would be read as something else.

ghost use Rattle.std.specs.Prelude.{◌≡◌, ◌++◌, ◌<◌, OnOk};
ghost use Rattle.std.specs.List.{flat_map};
ghost use Rattle.report_forms.specs.Escapes.{
  capital_digit,
  two_digits,
  json_byte,
  json_text,
  xml_byte,
  xml_text,
  percent_digits,
  message_byte,
  message_text,
  property_byte,
  property_text,
  stays_in_path,
  uri_byte,
  uri_text,
  byte_by,
};

use std::alloc::AllocError;

/// A hexadecimal digit, in capitals.
fn capital_digit(number: u8) -> u8
    requires { number < 16 }
    ensures { result ≡ capital_digit number }
{
    if number < 10 {
        number + b'0'
    } else {
        number + 55
    }
}

/// Puts a byte as two hexadecimal digits.
fn put_digits(out: &mut Vec<u8>, byte: u8) -> Result<(), AllocError>
    ensures { OnOk result (out.new.items ≡ out.old.items ++ two_digits byte) }
{
    out.extend_from_slice(&[capital_digit(byte / 16), capital_digit(byte % 16)])
}

/// Puts a byte behind a percent sign.
fn put_percent(out: &mut Vec<u8>, byte: u8) -> Result<(), AllocError>
    ensures { OnOk result (out.new.items ≡ out.old.items ++ percent_digits byte) }
{
    out.extend_from_slice(b"%")?;
    put_digits(out, byte)
}

fn put_json_byte(out: &mut Vec<u8>, byte: u8) -> Result<(), AllocError>
    ensures { OnOk result (out.new.items ≡ out.old.items ++ json_byte byte) }
{
    if byte == b'"' || byte == b'\\' {
        return out.extend_from_slice(&[b'\\', byte]);
    }
    if byte < 32 {
        out.extend_from_slice(b"\\u00")?;
        return put_digits(out, byte);
    }
    out.extend_from_slice(&[byte])
}

fn put_xml_byte(out: &mut Vec<u8>, byte: u8) -> Result<(), AllocError>
    ensures { OnOk result (out.new.items ≡ out.old.items ++ xml_byte byte) }
{
    match byte {
        b'&' => out.extend_from_slice(b"&amp;"),
        b'<' => out.extend_from_slice(b"&lt;"),
        b'>' => out.extend_from_slice(b"&gt;"),
        b'"' => out.extend_from_slice(b"&quot;"),
        _ if byte < 32 && byte != b'\n' => out.extend_from_slice(b"?"),
        _ => out.extend_from_slice(&[byte]),
    }
}

fn put_message_byte(out: &mut Vec<u8>, byte: u8) -> Result<(), AllocError>
    ensures { OnOk result (out.new.items ≡ out.old.items ++ message_byte byte) }
{
    if byte == b'%' || byte == b'\n' || byte == b'\r' {
        return put_percent(out, byte);
    }
    out.extend_from_slice(&[byte])
}

fn put_property_byte(out: &mut Vec<u8>, byte: u8) -> Result<(), AllocError>
    ensures { OnOk result (out.new.items ≡ out.old.items ++ property_byte byte) }
{
    if byte == b':' || byte == b',' {
        return put_percent(out, byte);
    }
    put_message_byte(out, byte)
}

/// Whether a byte stays as it is in the path of a URI.
fn stays_in_path(byte: u8) -> bool
    ensures { result ≡ stays_in_path byte }
{
    byte.is_ascii_alphabetic()
        || byte == b'_'
        || byte.is_ascii_digit()
        || matches!(byte, b'-' | b'.' | b'~' | b'/')
}

fn put_uri_byte(out: &mut Vec<u8>, byte: u8) -> Result<(), AllocError>
    ensures { OnOk result (out.new.items ≡ out.old.items ++ uri_byte byte) }
{
    if stays_in_path(byte) {
        return out.extend_from_slice(&[byte]);
    }
    put_percent(out, byte)
}

/// Where a text is written, which says what has to be escaped.
#[derive(Clone, Copy)]
enum Escape {
    /// In a string of JSON.
    Json,
    /// In XML.
    Xml,
    /// In the message of an annotation.
    Message,
    /// In a property of an annotation.
    Property,
    /// In the path of a URI.
    Uri,
}

fn put_byte(out: &mut Vec<u8>, escape: Escape, byte: u8) -> Result<(), AllocError>
    ensures { OnOk result (out.new.items ≡ out.old.items ++ byte_by escape byte) }
{
    match escape {
        Escape::Json => put_json_byte(out, byte),
        Escape::Xml => put_xml_byte(out, byte),
        Escape::Message => put_message_byte(out, byte),
        Escape::Property => put_property_byte(out, byte),
        Escape::Uri => put_uri_byte(out, byte),
    }
}

fn put_bytes(out: &mut Vec<u8>, escape: Escape, text: &[u8]) -> Result<(), AllocError>
    ensures { OnOk result (out.new.items ≡ out.old.items ++ flat_map (byte_by escape) text.now) }
{
    for byte in text {
        put_byte(out, escape, *byte)?;
    }
    Ok(())
}

/// Puts a text within a string of JSON.
pub(crate) fn put_json(out: &mut Vec<u8>, text: &[u8]) -> Result<(), AllocError>
    ensures { OnOk result (out.new.items ≡ out.old.items ++ json_text text.now) }
{
    put_bytes(out, Escape::Json, text)
}

/// Puts a text within XML.
pub(crate) fn put_xml(out: &mut Vec<u8>, text: &[u8]) -> Result<(), AllocError>
    ensures { OnOk result (out.new.items ≡ out.old.items ++ xml_text text.now) }
{
    put_bytes(out, Escape::Xml, text)
}

/// Puts a text as the message of an annotation.
pub(crate) fn put_message(out: &mut Vec<u8>, text: &[u8]) -> Result<(), AllocError>
    ensures { OnOk result (out.new.items ≡ out.old.items ++ message_text text.now) }
{
    put_bytes(out, Escape::Message, text)
}

/// Puts a text as a property of an annotation.
pub(crate) fn put_property(out: &mut Vec<u8>, text: &[u8]) -> Result<(), AllocError>
    ensures { OnOk result (out.new.items ≡ out.old.items ++ property_text text.now) }
{
    put_bytes(out, Escape::Property, text)
}

/// Puts a path as a URI.
pub(crate) fn put_uri(out: &mut Vec<u8>, path: &[u8]) -> Result<(), AllocError>
    ensures { OnOk result (out.new.items ≡ out.old.items ++ uri_text path.now) }
{
    put_bytes(out, Escape::Uri, path)
}
