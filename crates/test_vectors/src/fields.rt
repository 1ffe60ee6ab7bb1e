//! The fields of a row, and how their texts are written.

use fluent_uri::normalize::NormalizeError;
use fluent_uri::resolve::ResolveError;
use std::alloc::{AllocError, Global};
use std::fmt;

/// Why a row has no result.
#[derive(Clone, Copy)]
pub(crate) enum RowError {
    OutOfMemory,
    /// What is malformed in the row.
    Malformed(&'static str),
}

const NOT_A_NUMBER: RowError = RowError::Malformed("a field is not a number");

const MALFORMED_ESCAPE: RowError = RowError::Malformed("an escape is malformed");

impl From<AllocError> for RowError {
    /// Returns why a row has no result, for a failed allocation.
    fn from(_: AllocError) -> RowError {
        RowError::OutOfMemory
    }
}

impl From<NormalizeError> for RowError {
    /// Returns why a row has no result, for a text without a normal form.
    fn from(error: NormalizeError) -> RowError {
        match error {
            NormalizeError::OutOfMemory => RowError::OutOfMemory,
            NormalizeError::PathUnderflow => RowError::Malformed("no normal form"),
        }
    }
}

impl From<ResolveError> for RowError {
    /// Returns why a row has no result, for a reference without a target.
    fn from(error: ResolveError) -> RowError {
        match error {
            ResolveError::OutOfMemory => RowError::OutOfMemory,
            _ => RowError::Malformed("no target"),
        }
    }
}

impl fmt::Display for RowError {
    /// Writes why a row has no result.
    fn fmt<W: fmt::Write>(&self, f: &mut fmt::Formatter<W>) -> fmt::Result {
        match *self {
            RowError::OutOfMemory => f.write_str("out of memory"),
            RowError::Malformed(what) => f.write_str(what),
        }
    }
}

/// The fields of the question that are not yet taken.
#[derive(Drop)]
pub(crate) struct Fields<'a> {
    alloc: Global,
    rest: &'a str,
}

impl<'a> Fields<'a> {
    /// Returns the fields of what a row asks, of which none is taken.
    pub(crate) fn new(alloc: Global, asked: &'a str) -> Fields<'a> {
        Fields {
            alloc,
            rest: asked.trim(),
        }
    }

    /// Takes the next field of a row as it is written.
    pub(crate) fn word(&mut self) -> Result<&'a str, RowError> {
        if self.rest.is_empty() {
            return Err(RowError::Malformed("a field is missing"));
        }
        match self.rest.split_once(' ') {
            Some((word, rest)) => {
                self.rest = rest.trim();
                Ok(word)
            }
            None => {
                let word = self.rest;
                self.rest = "";
                Ok(word)
            }
        }
    }

    /// Takes the next field of a row, and returns its text without escapes.
    pub(crate) fn text(&mut self) -> Result<String, RowError> {
        let word = self.word()?;
        unescaped(self.alloc, word)
    }

    /// Takes the next field of a row as a decimal number.
    pub(crate) fn number(&mut self) -> Result<u16, RowError> {
        match self.word()?.parse::<u16>() {
            Ok(number) => Ok(number),
            Err(_) => Err(NOT_A_NUMBER),
        }
    }

    /// Takes the next field of a row as a hexadecimal number.
    pub(crate) fn hexadecimal(&mut self) -> Result<u16, RowError> {
        match u16::from_str_radix(self.word()?, 16) {
            Ok(number) => Ok(number),
            Err(_) => Err(NOT_A_NUMBER),
        }
    }

    /// Takes the bytes of the next field of a row: hexadecimal numbers with a comma between two.
    pub(crate) fn bytes(&mut self) -> Result<Vec<u8>, RowError> {
        let mut bytes = Vec::new(self.alloc);
        for pair in self.word()?.split(',') {
            match u8::from_str_radix(pair, 16) {
                Ok(byte) => bytes.extend_from_slice(&[byte])?,
                Err(_) => return Err(RowError::Malformed("a byte is malformed")),
            }
        }
        Ok(bytes)
    }

    /// Returns whether no field of a row is left.
    pub(crate) fn is_at_end(&self) -> bool {
        self.rest.is_empty()
    }
}

/// Returns the text that a field of a row writes, perhaps with escapes.
pub(crate) fn unescaped(alloc: Global, word: &str) -> Result<String, RowError> {
    let mut text = String::new(alloc);
    if word == "\"\"" {
        return Ok(text);
    }
    let mut is_first = true;
    for piece in word.split('\\') {
        if is_first {
            text.push_str(piece)?;
            is_first = false;
        } else {
            push_escaped(alloc, piece, &mut text)?;
        }
    }
    Ok(text)
}

/// Appends what an escape in a row, given without its `\`, writes, and the text that follows it.
fn push_escaped(alloc: Global, piece: &str, text: &mut String) -> Result<(), RowError> {
    if let Some(rest) = piece.strip_prefix('s') {
        text.push(' ')?;
        text.push_str(rest)?;
        return Ok(());
    }
    let Some((head, tail)) = piece.split_once('{') else {
        return Err(MALFORMED_ESCAPE);
    };
    let Some((body, rest)) = tail.split_once('}') else {
        return Err(RowError::Malformed("an escape has no `}`"));
    };
    if head == "u" {
        text.push(character(body)?)?;
    } else {
        match head.parse::<usize>() {
            Ok(times) => text.push_str(body.repeat(alloc, times)?.as_str())?,
            Err(_) => return Err(MALFORMED_ESCAPE),
        }
    }
    text.push_str(rest)?;
    Ok(())
}

/// Returns the character whose number an escape in a row has in hexadecimal digits.
fn character(digits: &str) -> Result<char, RowError> {
    match u32::from_str_radix(digits, 16) {
        Ok(number) => char::from_u32(number).ok_or(RowError::Malformed("no such character")),
        Err(_) => Err(MALFORMED_ESCAPE),
    }
}

/// The words of a result, with a space between two of them.
#[derive(Drop)]
pub(crate) struct Words {
    alloc: Global,
    text: String,
}

impl Words {
    /// Returns the result of a row, which has no words yet.
    pub(crate) fn new(alloc: Global) -> Words {
        Words {
            alloc,
            text: String::new(alloc),
        }
    }

    /// Returns the words of a row's result, with a space between two of them.
    pub(crate) fn as_str(&self) -> &str {
        self.text.as_str()
    }

    /// Appends a space to a row's result if it has a word.
    fn begin(&mut self) -> Result<(), AllocError> {
        if !self.text.is_empty() {
            self.text.push(' ')?;
        }
        Ok(())
    }

    /// Appends words to a row's result as they are.
    pub(crate) fn verbatim(&mut self, words: &str) -> Result<(), AllocError> {
        self.begin()?;
        self.text.push_str(words)
    }

    /// Appends a text to a row's result as one word.
    pub(crate) fn text(&mut self, text: &str) -> Result<(), AllocError> {
        self.begin()?;
        if text.is_empty() {
            return self.text.push_str("\"\"");
        }
        self.escaped(text)
    }

    /// Appends a name and a text, if there is one, to a row's result as one word.
    pub(crate) fn named(&mut self, name: &str, text: Option<&str>) -> Result<(), AllocError> {
        let Some(text) = text else {
            return Ok(());
        };
        self.begin()?;
        self.text.push_str(name)?;
        self.text.push('=')?;
        self.escaped(text)
    }

    /// Returns whether a row's result has this text alone, as one word.
    pub(crate) fn is_text(&self, text: &str) -> Result<bool, AllocError> {
        let mut alone = Words::new(self.alloc);
        alone.text(text)?;
        Ok(alone.as_str() == self.as_str())
    }

    /// Appends a name and a text to a row's result as one word, unless the text is all that it has.
    pub(crate) fn unless_said(&mut self, name: &str, text: &str) -> Result<(), AllocError> {
        if self.is_text(text)? {
            return Ok(());
        }
        self.named(name, Some(text))
    }

    /// Appends a text to a row's result as one word if it has none, and otherwise does as
    /// `unless_said`.
    pub(crate) fn or_same(&mut self, name: &str, text: &str) -> Result<(), AllocError> {
        if self.text.is_empty() {
            return self.text(text);
        }
        self.unless_said(name, text)
    }

    /// Appends a message to a row's result unless something holds.
    pub(crate) fn unless(&mut self, holds: bool, message: &str) -> Result<(), AllocError> {
        if holds {
            return Ok(());
        }
        self.verbatim(message)
    }

    /// Appends a text to a row's result, with escapes for spaces, `\` and control characters.
    fn escaped(&mut self, text: &str) -> Result<(), AllocError> {
        if !text.contains(is_escaped) {
            return self.text.push_str(text);
        }
        for ch in text.chars() {
            if is_escaped(ch) {
                let code = u32::from(ch);
                let escape = format!(in self.alloc; "\\u{{{code:x}}}")?;
                self.text.push_str(escape.as_str())?;
            } else {
                self.text.push(ch)?;
            }
        }
        Ok(())
    }
}

/// Returns whether a row's result has the character as an escape.
fn is_escaped(ch: char) -> bool {
    ch == ' ' || ch == '\\' || ch.is_control()
}
