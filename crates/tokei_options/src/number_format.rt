//! How the digits of a number are grouped.
use std::alloc::{AllocError, Global};
use std::str::FromStr;
use thiserror::Error;

/// What stands between groups of three digits: nothing, or a character.
#[derive(Clone, Copy, Debug, PartialEq, Eq, Default)]
pub enum NumberFormatStyle {
    /// 1234
    #[default]
    Plain,
    /// 1,234
    Commas,
    /// 1.234
    Dots,
    /// 1_234
    Underscores,
}

/// The text names no style.
#[derive(Clone, Copy, Debug, PartialEq, Eq, Error)]
#[error("no number format style")]
pub struct StyleError;

/// The exact names are `plain`, `commas`, `dots` and `underscores`.
impl FromStr for NumberFormatStyle {
    type Err = StyleError;

    ghost use Rattle.tokei_options.specs.Styles.{ParsesStyle};

    ghost from_str_gives = { ParsesStyle };

    fn from_str(text: &str) -> Result<NumberFormatStyle, StyleError> {
        match text {
            "plain" => Ok(NumberFormatStyle::Plain),
            "commas" => Ok(NumberFormatStyle::Commas),
            "dots" => Ok(NumberFormatStyle::Dots),
            "underscores" => Ok(NumberFormatStyle::Underscores),
            _ => Err(StyleError),
        }
    }
}

impl NumberFormatStyle {
    ghost use Rattle.std.specs.Prelude.{◌≡◌};
    ghost use Rattle.tokei_options.specs.Styles.{separator_of};

    /// The format with the style's separator.
    pub fn get_format(self) -> NumberFormat
        ensures { result.separator ≡ separator_of self }
    {
        let separator = match self {
            NumberFormatStyle::Plain => None,
            NumberFormatStyle::Commas => Some(','),
            NumberFormatStyle::Dots => Some('.'),
            NumberFormatStyle::Underscores => Some('_'),
        };
        NumberFormat { separator }
    }
}

/// A number format: what stands between groups of three digits.
#[derive(Clone, Copy, Debug, PartialEq, Eq)]
pub struct NumberFormat {
    pub separator: Option<char>,
}

impl NumberFormat {
    ghost use Rattle.std.specs.Prelude.{◌≡◌, ◌++◌, [], IfOk, OnOk, string_bytes, decimal, if◌then◌else◌};
    ghost use Rattle.tokei_options.specs.Grouping.{ends_group, grouped, separator_text};

    /// The number's digits, a separator behind each digit that a multiple of three digits follow.
    pub fn grouped(&self, alloc: Global, number: usize) -> Result<String, AllocError>
        ensures { IfOk result (λ s. string_bytes s
            ≡ grouped (separator_text self.now.separator) (decimal number)) }
    {
        let digits = format!(in alloc; "{number}")?;
        let digits = digits.as_bytes();
        let mut text = String::new(alloc);
        for (i, digit) in digits.iter().enumerate() {
            text.push(char::from(*digit))?;
            self.end_group(&mut text, digits.len() - 1 - i)?;
        }
        Ok(text)
    }

    /// Appends the separator where so many digits that follow end a group.
    fn end_group(&self, text: &mut String, behind: usize) -> Result<(), AllocError>
        ensures { OnOk result (string_bytes text.new
            ≡ string_bytes text.old
            ++ (if ends_group behind then separator_text self.now.separator else [])) }
    {
        if behind > 0 && behind % 3 == 0 {
            if let Some(separator) = self.separator {
                text.push(separator)?;
            }
        }
        Ok(())
    }
}
