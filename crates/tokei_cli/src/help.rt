//! What help and the version print.

/// What `--version` prints.
pub const VERSION_LINE: &str = "tokei 15.0.0 compiled with serialization support: json\n";

/// What `--help` prints: the text that the parser makes of the options. It stands here since no
/// contract of the parser's says what its texts are; a test compares them.
pub const HELP: &str = "\
Counts blank, code and comment lines, by language.

Usage: tokei [OPTIONS] [input]...

Arguments:
  [input]...  The files and folders to be counted; the current folder where none is given.

Options:
  -c, --columns <columns>        Prints the report at this width, in columns; at least 81.
  -f, --files                    Also lists every file.
  -C, --compact                  Prints no statistics of embedded languages.
  -n, --num-format <num-format>  How numbers are printed: plain (1234, the default), commas (1,234), dots (1.234) or underscores (1_234).
  -o, --output <output>          Writes the results in a format for other programs, in place of the report: json.
      --streaming <streaming>    Writes a record of each file as it is counted (language, path, lines, blanks, code, \
    comments): simple or json.
  -l, --languages                Lists the languages and their extensions, and counts nothing.
  -s, --sort <sort>              Sorts the languages by a column: files, lines, blanks, code or comments.
  -r, --rsort <rsort>            Sorts the languages by a column, and reverses the order.
  -t, --types <types>            Counts only these languages, separated by commas, as in -t=Rust,Markdown.
      --no-ignore                Obeys no ignore file; implies --no-ignore-parent, --no-ignore-dot and --no-ignore-vcs.
      --no-ignore-parent         Obeys no ignore file of the folders above.
      --no-ignore-dot            Obeys neither .ignore nor .tokeignore.
      --no-ignore-vcs            Obeys none of git's ignore files, those of the folders above included.
  -e, --exclude <exclude>        Leaves out all files and folders that match the pattern; may be given several times.
      --hidden                   Counts hidden files too.
  -i, --input <file_input>       Adds the statistics of an earlier run, written by -o json: a file, or stdin.
      --table <table>            The file of the table of languages; without it the one installed with the program, else languages.json in the current folder.
  -v, --verbose...               Shows more notes: -v warnings, -vv and -vvv everything; without it errors alone.
  -h, --help                     Print help
  -V, --version                  Print version
";
