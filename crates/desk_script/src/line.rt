//! A line of a script.

ghost use Rattle.std.specs.Prelude.{◌≡◌, ◌<◌, ◌==◌, ◌∷◌, [], length, bytes_eq, IfSome, IfNone, position};
ghost use Rattle.std.specs.Option.{option_map_or};
ghost use Rattle.desk_script.specs.Script.{parts, number_of, bare_call, job_call, grant_call, written_call};

use crate::call::Call;

/// The greatest number in a script: 2^63 - 1.
pub const MAX_NUMBER: u64 = 9_223_372_036_854_775_807;

fn first_place(mark: u8, text: &[u8]) -> Option<usize>
    ensures { result ≡ position (λ b. b == mark) text.now }
{
    text.iter().position(|byte| *byte == mark)
}

/// What stands before the first byte of this value, and what stands after it, if there is one.
pub(crate) fn cut_at(mark: u8, text: &[u8]) -> (&[u8], Option<&[u8]>)
    ensures parts { parts mark text.now ≡ result.0.now ∷
        option_map_or (λ rest. parts mark rest.now) result.1 [] }
    ensures shorter { IfSome result.1 (λ rest. length rest.now < length text.now) }
    ensures whole { IfNone result.1 (result.0.now ≡ text.now) }
{
    match first_place(mark, text) {
        Some(at) => (&text[..at], Some(&text[at + 1..])),
        None => (text, None),
    }
}

/// The number that digits write, if it is within the limit; leading zeros are read.
#[tactic(auto, using(crate::proofs::Numbers::no_digits, crate::proofs::Numbers::not_digits, crate::proofs::Numbers::too_large, crate::proofs::Numbers::one_digit, crate::proofs::Numbers::all_digits))]
fn number_of(text: &[u8]) -> Option<u64>
    ensures { result ≡ number_of text.now }
{
    let mut value = 0u64;
    'digits: for byte in text {
        if !byte.is_ascii_digit() {
            return None;
        }
        let next = u128::from(value) * 10 + u128::from(*byte - b'0');
        if next > u128::from(MAX_NUMBER) {
            return None;
        }
        value = next as u64;
    }
    if text.is_empty() {
        return None;
    }
    Some(value)
}

fn is_word(text: &[u8], word: &str) -> bool
    ensures { result ≡ bytes_eq text.now word.now }
{
    text == word.as_bytes()
}

/// The call of a word alone.
fn bare_call(word: &[u8]) -> Option<Call>
    ensures { result ≡ bare_call word.now }
{
    if is_word(word, "enter") {
        Some(Call::Enter)
    } else {
        None
    }
}

/// The call of a word and a job.
fn job_call(word: &[u8], job: usize) -> Option<Call>
    ensures { result ≡ job_call word.now job }
{
    if is_word(word, "withdraw") {
        Some(Call::Withdraw { job })
    } else if is_word(word, "lines") {
        Some(Call::Lines { job })
    } else {
        None
    }
}

/// The call of a word, a job and charges.
fn grant_call(word: &[u8], job: usize, charges: u64) -> Option<Call>
    ensures { result ≡ grant_call word.now job charges }
{
    if is_word(word, "grant") {
        Some(Call::Grant { job, charges })
    } else {
        None
    }
}

/// The call that a line writes: a word and its numbers, with one space between.
pub(crate) fn written_call(line: &[u8]) -> Option<Call>
    ensures { result ≡ written_call line.now }
{
    let (word, rest) = cut_at(b' ', line);
    let Some(rest) = rest else {
        return bare_call(word);
    };
    let (digits, rest) = cut_at(b' ', rest);
    let job = number_of(digits)? as usize;
    let Some(rest) = rest else {
        return job_call(word, job);
    };
    let (digits, rest) = cut_at(b' ', rest);
    let charges = number_of(digits)?;
    if rest.is_some() {
        return None;
    }
    grant_call(word, job, charges)
}
