//! What a line of a report is, by its words.

ghost use Rattle.std.specs.Prelude.{◌≡◌, map, bytes_eq};
ghost use Rattle.std.specs.List.{list_all};
ghost use Rattle.std.specs.Char.{is_ascii_digit};
ghost use Rattle.report_summary.specs.Kinds.{
  is_rule_byte,
  is_rule_name,
  is_object_byte,
  is_object_id,
  is_count_number,
  is_count,
  verdict_kind,
  finding_kind,
  word_in,
  total_kind,
  rule_kind,
  short_kind,
  kind_by,
};

/// What a line of a report is.
#[derive(Clone, Copy)]
pub(crate) enum LineKind {
    /// An object for which a rule fails.
    Fail,
    /// An object for which a rule is undecided.
    Undecided,
    /// The counts of a rule.
    Rule,
    /// The counts of all rules.
    Total,
    /// A line without a byte, as behind the last line feed.
    Empty,
    /// No line of a report.
    Other,
}

/// The longest number that is read, in digits.
const MAX_DIGITS: usize = 19;

fn is_rule_byte(byte: u8) -> bool
    ensures { result ≡ is_rule_byte byte }
{
    byte.is_ascii_alphabetic() || byte.is_ascii_digit() || byte == b'_'
}

fn are_rule_bytes(word: &[u8]) -> bool
    ensures { result ≡ list_all is_rule_byte word.now }
{
    word.iter().all(|byte| is_rule_byte(*byte))
}

/// Whether a word may be the name of a rule.
fn is_rule_name(word: &[u8]) -> bool
    ensures { result ≡ is_rule_name word.now }
{
    !word.is_empty() && are_rule_bytes(word)
}

fn is_object_byte(byte: u8) -> bool
    ensures { result ≡ is_object_byte byte }
{
    is_rule_byte(byte) || byte == b'.' || byte == b':' || byte == b'-'
}

fn are_object_bytes(word: &[u8]) -> bool
    ensures { result ≡ list_all is_object_byte word.now }
{
    word.iter().all(|byte| is_object_byte(*byte))
}

/// Whether a word may be the id of an object.
fn is_object_id(word: &[u8]) -> bool
    ensures { result ≡ is_object_id word.now }
{
    !word.is_empty() && are_object_bytes(word)
}

fn are_digits(word: &[u8]) -> bool
    ensures { result ≡ list_all is_ascii_digit word.now }
{
    word.iter().all(|byte| byte.is_ascii_digit())
}

/// Whether a word is a number of a report.
fn is_count_number(word: &[u8]) -> bool
    ensures { result ≡ is_count_number word.now }
{
    !word.is_empty() && word.len() <= MAX_DIGITS && are_digits(word)
}

fn is_word(word: &[u8], wanted: &str) -> bool
    ensures { result ≡ bytes_eq word.now wanted.now }
{
    word == wanted.as_bytes()
}

/// What the line of an object is by its verdict.
fn verdict_kind(verdict: &[u8]) -> LineKind
    ensures { result ≡ verdict_kind verdict.now }
{
    if is_word(verdict, "fail") {
        LineKind::Fail
    } else if is_word(verdict, "undecided") {
        LineKind::Undecided
    } else {
        LineKind::Other
    }
}

fn finding_kind(verdict: &[u8], rule: &[u8], object: &[u8]) -> LineKind
    ensures { result ≡ finding_kind verdict.now rule.now object.now }
{
    if is_rule_name(rule) && is_object_id(object) {
        verdict_kind(verdict)
    } else {
        LineKind::Other
    }
}

/// Whether a word and the number behind it are a count of this name.
fn is_count(word: &[u8], number: &[u8], name: &str) -> bool
    ensures { result ≡ is_count word.now number.now name.now }
{
    is_word(word, name) && is_count_number(number)
}

/// The word of a number; nothing where there are fewer.
pub(crate) fn word_in<'w>(words: &[&'w [u8]], number: usize) -> &'w [u8]
    ensures { result.now ≡ word_in (map (λ w. w.now) words.now) number }
{
    match words.get(number) {
        Some(word) => word,
        None => &[],
    }
}

/// What a line of five words is.
fn total_kind(words: &[&[u8]]) -> LineKind
    ensures { result ≡ total_kind (map (λ w. w.now) words.now) }
{
    if is_word(word_in(words, 0), "total")
        && is_count(word_in(words, 1), word_in(words, 2), "fails")
        && is_count(word_in(words, 3), word_in(words, 4), "undecided")
    {
        LineKind::Total
    } else {
        LineKind::Other
    }
}

/// What a line of ten words is.
fn rule_kind(words: &[&[u8]]) -> LineKind
    ensures { result ≡ rule_kind (map (λ w. w.now) words.now) }
{
    if is_word(word_in(words, 0), "rule")
        && is_rule_name(word_in(words, 1))
        && is_count(word_in(words, 2), word_in(words, 3), "checked")
        && is_count(word_in(words, 4), word_in(words, 5), "holds")
        && is_count(word_in(words, 6), word_in(words, 7), "fails")
        && is_count(word_in(words, 8), word_in(words, 9), "undecided")
    {
        LineKind::Rule
    } else {
        LineKind::Other
    }
}

/// What a line of another number of words is.
fn short_kind(words: &[&[u8]]) -> LineKind
    ensures { result ≡ short_kind (map (λ w. w.now) words.now) }
{
    if words.len() == 1 && word_in(words, 0).is_empty() {
        LineKind::Empty
    } else {
        LineKind::Other
    }
}

/// What a line is by its words.
pub(crate) fn kind_by(words: &[&[u8]]) -> LineKind
    ensures { result ≡ kind_by (map (λ w. w.now) words.now) }
{
    match words.len() {
        3 => finding_kind(word_in(words, 0), word_in(words, 1), word_in(words, 2)),
        5 => total_kind(words),
        10 => rule_kind(words),
        _ => short_kind(words),
    }
}
