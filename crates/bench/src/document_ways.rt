//! The ways to print a document and to parse it.
ghost use Rattle.std.specs.Prelude.{◌≡◌, Ok, Some, IfOk, string_bytes};
ghost use Rattle.serde_json.specs.Read.{read};
ghost use Rattle.serde_json.specs.View.{view};
ghost use Rattle.serde_json.specs.Written.{compact_text};
ghost use Rattle.tokei_earlier.specs.Outcome.{outcome_of_text};
ghost use Rattle.tokei_json.specs.Document.{document};
ghost use Rattle.tokei_languages.specs.Seen.{languages_of};

use anyhow::bail;
use serde_json::Value;
use std::alloc::Global;
use tokei_earlier::Format;
use tokei_languages::Languages;
use tokei_table::LanguageTable;

/// Languages of a table, their document, and the value of that.
#[derive(Clone, Copy)]
pub struct Input<'a> {
    pub table: &'a LanguageTable,
    pub languages: &'a Languages,
    pub text: &'a str,
    pub value: &'a Value,
}

/// A way to print or to parse.
#[derive(Clone, Copy)]
pub enum Way {
    /// The languages as a text.
    Print,
    /// The text's languages.
    Parse,
    /// The value as a text, by `serde_json`.
    PrintValue,
    /// The text's value, by `serde_json`.
    ParseValue,
}

/// What a way answers.
#[derive(Drop)]
pub enum Answer {
    Text(String),
    Languages(Languages),
    Value(Value),
}

impl Way {
    /// The word for the way in what the program prints.
    pub fn name(self) -> &'static str {
        match self {
            Way::Print => "print",
            Way::Parse => "parse",
            Way::PrintValue => "print_value",
            Way::ParseValue => "parse_value",
        }
    }

    /// What going this way answers.
    pub fn go(self, alloc: Global, input: &Input) -> anyhow::Result<Answer> {
        match self {
            Way::Print => Ok(Answer::Text(printed(alloc, input)?)),
            Way::Parse => Ok(Answer::Languages(parsed(alloc, input)?)),
            Way::PrintValue => Ok(Answer::Text(input.value.to_string(alloc)?)),
            Way::ParseValue => Ok(Answer::Value(parsed_value(alloc, input)?)),
        }
    }
}

impl Answer {
    /// Fails where the answer isn't the input's own languages, text or value.
    pub fn check(&self, input: &Input) -> anyhow::Result<()> {
        let is_same = match self {
            Answer::Text(text) => text.as_str() == input.text,
            Answer::Languages(languages) => languages == input.languages,
            Answer::Value(value) => value == input.value,
        };
        if !is_same {
            bail!("what is printed isn't what is parsed");
        }
        Ok(())
    }
}

/// The document of the input's languages.
fn printed(alloc: Global, input: &Input) -> anyhow::Result<String>
    ensures { IfOk result (λ s. string_bytes s
        ≡ compact_text (document input.now.table.now (languages_of input.now.languages.now))) }
{
    Ok(Format::Json.print(alloc, input.table, input.languages)?)
}

/// The languages of the input's text.
fn parsed(alloc: Global, input: &Input) -> anyhow::Result<Languages>
    ensures { IfOk result (λ ls.
        outcome_of_text input.now.table.now input.now.text.now ≡ Ok (languages_of ls)) }
{
    Ok(Format::parse(alloc, input.table, input.text)?)
}

/// The value of the input's text.
fn parsed_value(alloc: Global, input: &Input) -> anyhow::Result<Value>
    ensures { IfOk result (λ v. read input.now.text.now ≡ Some (view v)) }
{
    Ok(Value::from_str(alloc, input.text)?)
}
