//! What a run counts, and what it writes.
use tokei_config::Config;
use tokei_earlier::Format;
use tokei_languages::Languages;
use tokei_options::{NumberFormatStyle, Sort, Streaming};

/// What a run writes.
#[derive(Debug, Drop)]
pub enum Wanted {
    /// A row for each file, as it is counted.
    Stream(Streaming),
    /// A document for other programs.
    Document(Format),
    /// The printed report.
    Report,
}

/// A run: what is counted, and what is written of it.
#[derive(Drop)]
pub struct Job {
    /// The files and folders that are counted, in this order.
    pub paths: Vec<String>,
    /// The patterns of files and folders that are left out.
    pub ignored: Vec<String>,
    pub config: Config,
    /// The results of earlier runs, which are added first.
    pub earlier: Option<Languages>,
    pub wanted: Wanted,
    /// The width of the printed report, in characters; fewer than 81 mean 81, and more than 65,535
    /// mean 65,535.
    pub columns: usize,
    /// Whether the report lists every file.
    pub files: bool,
    /// Whether the report leaves out the languages inside others.
    pub compact: bool,
    /// The column by which the report is sorted; `None` leaves the choice to the configuration.
    pub sort: Option<Sort>,
    /// Whether the order of a sorted report is reversed.
    pub reverse: bool,
    pub numbers: NumberFormatStyle,
}
