//! Counts the blank, code and comment lines of folders, and writes what was counted: a document, a
//! printed report, or a row for each file. It hands on the names that are used with it from the
//! crates below.
#![tactic(auto)]

pub mod columns;
mod counting;
mod earlier;
mod job;
mod rows;
mod running;
mod streaming;
mod writing;

pub use earlier::earlier_languages;
pub use job::{Job, Wanted};
pub use rows::{Rows, write_heading, write_row};
pub use running::run;
pub use streaming::stream;

// What is handed on from below.
pub use tokei_bytes::{decode_text, find_char_boundary};
pub use tokei_config::{Config, ConfigDirs, LanguageConfig};
pub use tokei_count::{
    Counter, FileContext, LanguageContext, count_plain, count_plain_counted, parse_counted,
    parse_from_slice, parse_from_str,
};
pub use tokei_earlier::{Format, FormatError, InputError, add_bytes, add_input, from_value};
pub use tokei_embedding::{
    Capture, HtmlLike, SimpleCapture, end_lf, end_markdown, end_script, end_style, end_template,
    start_lf, start_markdown, start_script, start_style, start_template,
};
pub use tokei_files::{ParseFault, from_path, from_shebang, parse_file};
pub use tokei_folders::{Above, Entry, Fault, Folders, Items, Kind, Listing, Text};
pub use tokei_ignore::{IgnoreFile, Pattern, PatternError, Verdict};
pub use tokei_io::{Counted, FailOnce, OutputError, Sink, Source, put};
pub use tokei_json::{report_line, to_value};
pub use tokei_languages::{Language, Languages};
pub use tokei_options::{
    CountConfig, NumberFormat, NumberFormatStyle, Sort, SortError, Streaming, StreamingError,
    StyleError,
};
pub use tokei_parts::SharedMatchers;
pub use tokei_print::{Printer, print_stream_heading, print_stream_row};
pub use tokei_statistics::CountFiles;
pub use tokei_stats::{CodeStats, CountError, Report, ReportRow};
pub use tokei_table::{LanguageTable, LanguageType, has_extension};
pub use tokei_table_json::{FromJson, TableError};
pub use tokei_table_row::{
    Syntax, contains_slice, is_blank_text, is_line_ending_whitespace, is_whitespace, trim,
    trim_first_and_last_line_of_whitespace, trim_start,
};
pub use tokei_table_search::OpenerIndex;
pub use tokei_walk::{Kept, KeptFile, Note, NoteKind, Rules, Walk, kept_files};
