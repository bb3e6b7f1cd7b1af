//! The faults of a document, one by one.

use crate::places::{Located, located_at, located_member};
use explain_faults::{Fault, Faults};
use explain_notes::{Input, quote};
use std::alloc::{AllocError, Global};

/// The most faults that are told.
const MAX_FAULTS: usize = 100;

/// What of an object something is said of.
#[derive(Clone, Copy, Drop)]
pub(crate) enum Spot<'v> {
    /// The object.
    Whole,
    /// A member of the object.
    Member(&'static str),
    /// A feature, by its name.
    Feature(&'v str),
    /// A value of a feature, by its index.
    Value(&'v str, usize),
}

/// An object of which something is said.
#[derive(Clone, Copy, Drop)]
pub(crate) struct Subject<'v> {
    /// Its index in the document, from 0.
    pub(crate) index: usize,
    /// Where it begins in the document, in bytes from 0.
    pub(crate) offset: usize,
    /// Its id.
    pub(crate) id: &'v str,
    /// The name of its class.
    pub(crate) class: &'v str,
    /// What of it something is said of.
    pub(crate) spot: Spot<'v>,
}

impl<'v> Subject<'v> {
    /// The same object, of which something else is said.
    pub(crate) fn at(self, spot: Spot<'v>) -> Subject<'v> {
        Subject { spot, ..self }
    }

    /// What something is said of; the object, if it isn't found.
    fn located(&self, alloc: Global, bytes: &[u8]) -> Result<Located, AllocError> {
        let index = self.index;
        let object = Located {
            offset: self.offset,
            pointer: Some(format!(in alloc; "/objects/{index}")?),
        };
        let found = match self.spot {
            Spot::Whole => None,
            Spot::Member(name) => located_member(alloc, bytes, &object, name)?,
            Spot::Feature(name) => located_feature(alloc, bytes, &object, name)?,
            Spot::Value(name, index) => match located_feature(alloc, bytes, &object, name)? {
                Some(value) => Some(located_value(alloc, bytes, value, index)?),
                None => None,
            },
        };
        match found {
            Some(found) => Ok(found),
            None => Ok(object),
        }
    }
}

/// The member of a feature, of an object.
fn located_feature(
    alloc: Global,
    bytes: &[u8],
    object: &Located,
    name: &str,
) -> Result<Option<Located>, AllocError> {
    match located_member(alloc, bytes, object, "features")? {
        Some(features) => located_member(alloc, bytes, &features, name),
        None => Ok(None),
    }
}

/// A value of a feature with this member: an element, if that is a list.
fn located_value(
    alloc: Global,
    bytes: &[u8],
    member: Located,
    index: usize,
) -> Result<Located, AllocError> {
    if bytes.get(member.offset) != Some(&b'[') {
        return Ok(member);
    }
    match located_at(alloc, bytes, &member, index)? {
        Some(value) => Ok(value),
        None => Ok(member),
    }
}

/// What is said of a document so far.
#[derive(Drop)]
pub(crate) struct Report<'a> {
    input: Input<'a>,
    faults: Vec<Fault>,
}

impl<'a> Report<'a> {
    /// Nothing yet.
    pub(crate) fn new(alloc: Global, input: Input<'a>) -> Report<'a> {
        Report {
            input,
            faults: Vec::new(alloc),
        }
    }

    /// Whether no more faults than these are told.
    pub(crate) fn is_full(&self) -> bool {
        self.faults.len() >= MAX_FAULTS
    }

    /// The bytes of the document.
    pub(crate) fn bytes(&self) -> &'a [u8] {
        self.input.bytes
    }

    /// Says something of a value, with the numbers of the fault as they are printed.
    pub(crate) fn tell(
        &mut self,
        alloc: Global,
        at: Located,
        message: &str,
        fault: &str,
    ) -> Result<(), AllocError> {
        if self.is_full() {
            return Ok(());
        }
        let Located { offset, pointer } = at;
        let text = format!(in alloc; "{message} ({fault})")?;
        let fault = Fault::at(alloc, self.input, offset, pointer, text)?;
        self.faults.push(fault)?;
        Ok(())
    }

    /// Says something of an object, with the numbers of the fault as they are printed.
    pub(crate) fn say(
        &mut self,
        alloc: Global,
        subject: &Subject<'_>,
        fault: &str,
        message: &str,
    ) -> Result<(), AllocError> {
        if self.is_full() {
            return Ok(());
        }
        let (index, id) = (subject.index, quote(alloc, subject.id)?);
        let class = quote(alloc, subject.class)?;
        let message = format!(in alloc; "object {index} (`{id}`, {class}): {message}")?;
        let at = subject.located(alloc, self.bytes())?;
        self.tell(alloc, at, message.as_str(), fault)
    }

    /// Says what the population refuses of an object, by the number of its fault.
    pub(crate) fn refuse(
        &mut self,
        alloc: Global,
        subject: &Subject<'_>,
        number: u8,
        message: &str,
    ) -> Result<(), AllocError> {
        let fault = format!(in alloc; "delivery 7 {number}")?;
        self.say(alloc, subject, fault.as_str(), message)
    }

    /// Adds the faults, and writes how many they are; where there are none, the fault that is known.
    pub(crate) fn end(
        self,
        alloc: Global,
        out: &mut Faults,
        known: &str,
    ) -> Result<(), AllocError> {
        let Report { input, faults } = self;
        let (path, count) = (input.path, faults.len());
        for fault in faults {
            out.add(fault)?;
        }
        match count {
            0 => out.add(Fault::of_whole(alloc, path, String::from_str(alloc, known)?)?),
            1 => writeln!(&mut out.words, "{path}: 1 fault"),
            MAX_FAULTS => writeln!(&mut out.words, "{path}: 100 faults; there may be more"),
            _ => writeln!(&mut out.words, "{path}: {count} faults"),
        }
    }
}
