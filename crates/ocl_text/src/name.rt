//! Names and numbers, with what a text says of them in their types.

ghost use Rattle.std.specs.Prelude.{◌≡◌, ◌≤◌, true, IfOk};
ghost use Rattle.ocl_base.specs.Words.{is_name};
ghost use Rattle.ocl_text.specs.Names.{is_operation_name};

use ocl_tokens::MAX_NUMBER;
use std::alloc::{AllocError, Global};
use std::marker::Model;
use std::rc::RcStr;

/// A name: an identifier that isn't reserved. A name may be as long as its text, so its copies share what it holds.
#[derive(Drop)]
pub struct Name {
    text: RcStr,
}

impl Model for Name {
    ghost use Rattle.std.specs.Prelude.{◌≡◌, ℕ, List, true};
    ghost use Rattle.std.specs.Rc.{rc_str_bytes};
    ghost use Rattle.ocl_base.specs.Words.{is_name};

    ghost Value = { List ℕ };

    ghost view = { λ n. rc_str_bytes n.text };

    ghost invariant = { λ n. is_name (rc_str_bytes n.text) ≡ true };
}

impl Name {
    /// The name that the text is.
    pub(crate) fn new(alloc: Global, text: &str) -> Result<Self, AllocError>
        requires { is_name text.now ≡ true }
        ensures { IfOk result (λ n. n ≡ text.now) }
    {
        Ok(Name {
            text: RcStr::from_str(alloc, text)?,
        })
    }

    /// The same name once more, in constant time.
    pub fn copy(&self) -> Result<Self, AllocError>
        ensures { IfOk result (λ n. n ≡ self.now) }
    {
        Ok(Name {
            text: self.text.clone()?,
        })
    }

    /// The name's text.
    pub fn as_str(&self) -> &str
        ensures text { result.now ≡ self.now }
        ensures name { is_name self.now ≡ true }
    {
        self.text.as_str()
    }
}

/// The name of an operation: a name, `div` or `mod`.
#[derive(Drop)]
pub struct OperationName {
    text: String,
}

impl Model for OperationName {
    ghost use Rattle.std.specs.Prelude.{◌≡◌, ℕ, List, true, string_bytes};
    ghost use Rattle.ocl_text.specs.Names.{is_operation_name};

    ghost Value = { List ℕ };

    ghost view = { λ n. string_bytes n.text };

    ghost invariant = { λ n. is_operation_name (string_bytes n.text) ≡ true };
}

impl OperationName {
    /// The name that the text is.
    pub(crate) fn new(alloc: Global, text: &str) -> Result<Self, AllocError>
        requires { is_operation_name text.now ≡ true }
        ensures { IfOk result (λ n. n ≡ text.now) }
    {
        Ok(OperationName {
            text: String::from_str(alloc, text)?,
        })
    }

    /// The name's text.
    pub fn as_str(&self) -> &str
        ensures text { result.now ≡ self.now }
        ensures name { is_operation_name self.now ≡ true }
    {
        self.text.as_str()
    }
}

/// A whole number of at most `MAX_NUMBER`.
#[derive(Drop)]
pub struct WholeNumber {
    value: u64,
}

impl Model for WholeNumber {
    ghost use Rattle.std.specs.Prelude.{ℕ, ◌≤◌};
    ghost use Rattle.ocl_tokens.specs.declared.token.TheConstants.{MAX_NUMBER};

    ghost Value = { ℕ };

    ghost view = { λ n. n.value };

    ghost invariant = { λ n. n.value ≤ MAX_NUMBER };
}

impl WholeNumber {
    /// The number that the value is.
    pub fn new(value: u64) -> Self
        requires { value ≤ MAX_NUMBER }
        ensures { result ≡ value }
    {
        WholeNumber { value }
    }

    /// The same number once more.
    pub fn copy(&self) -> Self
        ensures { result ≡ self.now }
    {
        WholeNumber { value: self.value }
    }

    /// The number's value.
    pub fn get(&self) -> u64
        ensures value { result ≡ self.now }
        ensures within { result ≤ MAX_NUMBER }
    {
        self.value
    }
}
