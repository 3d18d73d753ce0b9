//! What the tests work with: values that are read from denotations, and the text of what they give.

use setl_io::MemSource;
use setl_text::{Got, Reader, text};
use setl_value::Value;
use std::alloc::{AllocError, Global};
use std::fmt::{Debug, Write};

/// Values, where None is `om`, and a text. A call that finds no memory leaves a note.
#[derive(Drop)]
pub struct Work {
    pub alloc: Global,
    pub values: Vec<Option<Value>>,
    pub text: String,
    pub is_refused: bool,
}

impl Work {
    /// No values and no text.
    pub fn new(alloc: Global) -> Work {
        Work {
            alloc,
            values: Vec::new(alloc),
            text: String::new(alloc),
            is_refused: false,
        }
    }

    /// Begins anew.
    pub fn clear(&mut self) {
        self.values.clear();
        self.text.clear();
    }

    /// Notes that memory was refused, if it was.
    pub fn note(&mut self, outcome: Result<(), AllocError>) {
        if outcome.is_err() {
            self.is_refused = true;
        }
    }

    /// Adds to the text.
    pub fn put(&mut self, text: &str) {
        let outcome = self.text.push_str(text);
        self.note(outcome);
    }

    /// Adds what is written for the debugger.
    pub fn put_debug<D: Debug + Drop>(&mut self, what: D) {
        let outcome = write!(self.text, "{what:?}");
        self.note(outcome);
    }

    /// Adds bytes as characters, and `$` for the end of a line.
    pub fn put_bytes(&mut self, bytes: &[u8]) {
        for byte in bytes {
            let outcome = self.text.push(if *byte == b'\n' {
                '$'
            } else {
                char::from(*byte)
            });
            self.note(outcome);
        }
    }

    /// Adds bytes that were made, if they were.
    pub fn put_made(&mut self, bytes: &Result<Vec<u8>, AllocError>) {
        match bytes {
            Ok(bytes) => self.put_bytes(bytes.as_slice()),
            Err(_) => self.is_refused = true,
        }
    }

    /// Adds the text of a value.
    pub fn put_value(&mut self, v: &Value) {
        let made = text(self.alloc, v);
        self.put_made(&made);
    }

    /// Adds the text of a value, or `*` for `om`.
    pub fn put_part(&mut self, v: &Option<Value>) {
        match v {
            Some(v) => self.put_value(v),
            None => self.put("*"),
        }
    }

    /// Adds a value, or `om`.
    pub fn add(&mut self, part: Option<Value>) {
        if self.values.push(part).is_err() {
            self.is_refused = true;
        }
    }

    /// Adds a value that was made, if it was.
    pub fn add_made(&mut self, made: Result<Value, AllocError>) {
        match made {
            Ok(v) => self.add(Some(v)),
            Err(_) => self.is_refused = true,
        }
    }

    /// The first of the values, taken out; false where there is none.
    pub fn next(&mut self) -> Value {
        if self.values.is_empty() {
            return Value::Bool(false);
        }
        self.values.remove(0).unwrap_or(Value::Bool(false))
    }

    /// Adds a blank and the text of the first of the values, if there is one, which is taken out.
    pub fn put_next(&mut self) {
        if !self.values.is_empty() {
            let part = self.values.remove(0);
            self.put(" ");
            self.put_part(&part);
        }
    }

    /// Adds the values and `om` that these bytes denote, up to 20 of them. `atom 7` is written for that atom, and `set 9`
    /// and `tuple 9` for a set and a tuple of this depth that has no other parts.
    pub fn read(&mut self, written: &str) {
        let (word, number) = written.split_once(' ').unwrap_or((written, ""));
        let number = number.parse().unwrap_or(0);
        let outcome = match word {
            "atom" => {
                self.add(Some(Value::Atom(number)));
                Ok(())
            }
            "set" => self.read_tower("{", "}", number as usize),
            "tuple" => self.read_tower("[", "]", number as usize),
            _ => self.read_denoted(written),
        };
        self.note(outcome);
    }

    // Adds the value of nothing but so many brackets of each kind.
    fn read_tower(&mut self, open: &str, close: &str, height: usize) -> Result<(), AllocError> {
        let mut denotation = open.repeat(self.alloc, height)?;
        denotation.push_str(close.repeat(self.alloc, height)?.as_str())?;
        self.read_denoted(denotation.as_str())
    }

    fn read_denoted(&mut self, denotations: &str) -> Result<(), AllocError> {
        let bytes = denotations.as_bytes().to_vec(self.alloc)?;
        let mut source = MemSource::new(bytes, 4096, Vec::new(self.alloc));
        let mut reader = Reader::new(self.alloc)?;
        self.read_all(&mut reader, &mut source);
        Ok(())
    }

    fn read_all(&mut self, reader: &mut Reader, source: &mut MemSource) {
        for _ in 0..20 {
            match reader.next(source) {
                Ok(Got::Value(v)) => self.add(Some(v)),
                Ok(Got::Om) => self.add(None),
                _ => break,
            }
        }
    }
}
