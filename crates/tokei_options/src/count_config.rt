//! How texts are counted.

/// How a text is counted.
#[derive(Clone, Copy, Debug)]
pub struct CountConfig {
    /// Whether lines of doc strings count as comments; `None` means that they count as code.
    pub treat_doc_strings_as_comments: Option<bool>,
}
