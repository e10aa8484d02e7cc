//! What is said of a member of a row.
use crate::answers::Answers;
use std::str::from_utf8;
use toml::Value;

/// What is said of a member of a row.
#[derive(Clone, Copy)]
pub enum Said<'a> {
    /// A text.
    Text(&'a str),
    /// Bytes: their text, or their hexadecimal digits behind `hex ` where they aren't UTF-8.
    Bytes(&'a [u8]),
    /// A number: a text of its digits where it passes the greatest number of TOML.
    Number(u128),
    /// A place in a text, or `none`.
    Place(Option<usize>),
    /// True or false.
    Flag(bool),
    /// A list of numbers.
    Numbers(&'a [usize]),
    /// A list of texts.
    Texts(&'a [String]),
    /// A list of pairs of texts.
    Pairs(&'a [(String, String)]),
}

impl Answers<'_> {
    /// A number as a value.
    fn number_value(&mut self, number: u128) -> Value {
        if number <= i64::MAX as u128 {
            Value::Integer(number as i64)
        } else {
            Value::String(self.made(format!(in self.alloc; "{number}")))
        }
    }

    /// A text as a value.
    fn text_value(&mut self, text: &str) -> Value {
        Value::String(self.string(text))
    }

    /// Bytes as a value.
    fn bytes_value(&mut self, bytes: &[u8]) -> Value {
        match from_utf8(bytes) {
            Ok(text) => self.text_value(text),
            Err(_) => {
                let digits = self.made(hex::encode(self.alloc, bytes));
                Value::String(self.made(format!(in self.alloc; "hex {digits}")))
            }
        }
    }

    /// Adds a value to a list.
    fn push(&mut self, values: &mut Vec<Value>, value: Value) {
        let pushed = values.push(value);
        self.done(pushed);
    }

    /// A list of numbers as a value.
    fn numbers_value(&mut self, numbers: &[usize]) -> Value {
        let mut values = Vec::new(self.alloc);
        for number in numbers {
            let value = self.number_value(*number as u128);
            self.push(&mut values, value);
        }
        Value::Array(values)
    }

    /// A list of texts as a value.
    fn texts_value(&mut self, texts: &[String]) -> Value {
        let mut values = Vec::new(self.alloc);
        for text in texts {
            let value = self.text_value(text.as_str());
            self.push(&mut values, value);
        }
        Value::Array(values)
    }

    /// Two texts as a value.
    fn pair_value(&mut self, first: &str, second: &str) -> Value {
        let mut values = Vec::new(self.alloc);
        for text in [first, second] {
            let value = self.text_value(text);
            self.push(&mut values, value);
        }
        Value::Array(values)
    }

    /// A list of pairs of texts as a value.
    fn pairs_value(&mut self, pairs: &[(String, String)]) -> Value {
        let mut values = Vec::new(self.alloc);
        for (first, second) in pairs {
            let value = self.pair_value(first.as_str(), second.as_str());
            self.push(&mut values, value);
        }
        Value::Array(values)
    }

    /// What is said as a value.
    pub(crate) fn value_of(&mut self, said: Said<'_>) -> Value {
        match said {
            Said::Text(text) => self.text_value(text),
            Said::Bytes(bytes) => self.bytes_value(bytes),
            Said::Number(number) => self.number_value(number),
            Said::Place(Some(place)) => self.number_value(place as u128),
            Said::Place(None) => self.text_value("none"),
            Said::Flag(flag) => Value::Boolean(flag),
            Said::Numbers(numbers) => self.numbers_value(numbers),
            Said::Texts(texts) => self.texts_value(texts),
            Said::Pairs(pairs) => self.pairs_value(pairs),
        }
    }
}
