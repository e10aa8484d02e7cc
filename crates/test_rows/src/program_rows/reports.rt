//! Parts of a printed report that rows speak of.
use test_answers::{Answers, Page, Row, Said};

/// Says the first words of a report's rows, which are the lines that begin with a blank.
pub fn say_first_words(text: &str, answers: &mut Answers) {
    let mut words = Page::new(answers.alloc);
    for line in text.lines() {
        if let Some(row) = line.strip_prefix(' ') {
            if !words.is_empty() {
                words.put(" ");
            }
            match row.split_once(' ') {
                Some((word, _)) => words.put(word),
                None => words.put(row),
            }
        }
    }
    answers.say_page("out_first_words", &words);
}

/// Says the lines of a text at the places that a row wants, each under its place, which is written
/// in digits.
pub fn say_lines(text: &str, row: &Row, answers: &mut Answers) {
    if let Some(wanted) = answers.table_if(row, "out_lines") {
        for (digits, _) in wanted.members {
            if let Ok(place) = digits.parse::<usize>() {
                if let Some(line) = text.lines().nth(place) {
                    answers.put(digits.as_str(), Said::Text(line));
                }
            }
        }
        answers.say_parts("out_lines");
    }
}

/// Adds a line of a report without the characters by which it is wider: bars at the front of a
/// line of `━`, blanks behind the first word of another. One that isn't so wide is left out.
fn put_narrowed(page: &mut Page, line: &str, bars: &str, blanks: &str) {
    if let Some(rest) = line.strip_prefix(bars) {
        page.put_all(&[rest, "\n"]);
    } else if let Some(row) = line.strip_prefix(' ') {
        match row.split_once(blanks) {
            Some((word, rest)) if !word.contains(' ') => page.put_all(&[" ", word, rest, "\n"]),
            _ => {}
        }
    }
}

/// Says a report without the characters by which each of its lines is wider, as many as a row says.
pub fn say_narrowed(text: &str, row: &Row, answers: &mut Answers) {
    let alloc = answers.alloc;
    let wider = answers.place(row, "wider");
    let bars = answers.made("━".repeat(alloc, wider));
    let blanks = answers.made(" ".repeat(alloc, wider));
    let mut page = Page::new(alloc);
    for line in text.lines() {
        put_narrowed(&mut page, line, bars.as_str(), blanks.as_str());
    }
    answers.say_page("out_narrowed", &page);
}
