//! Tables that are written as texts.
//!
//! A line `====` stands between two rows of a table, and a line `--` between two fields of a row. A field is a text of
//! whole lines, and one that a row leaves out at its end is empty. The prover reads such a table as one word, so a row
//! costs nothing.

/// What stands between two rows.
pub const BETWEEN: &str = "====\n";

/// The first five fields of a row.
pub fn fields(row: &str) -> [&str; 5] {
    let mut all = row.split("--\n");
    [
        all.next().unwrap_or(""),
        all.next().unwrap_or(""),
        all.next().unwrap_or(""),
        all.next().unwrap_or(""),
        all.next().unwrap_or(""),
    ]
}

/// A field without its last line end.
pub fn text(field: &str) -> &str {
    field.strip_suffix('\n').unwrap_or(field)
}

/// An output, of which a `~` at its end says that its last line isn't written to its end.
pub fn cut(field: &str) -> &str {
    field.strip_suffix("~\n").unwrap_or(field)
}

/// The first five numbers of a field, and 0 where there are fewer.
pub fn numbers(field: &str) -> [u64; 5] {
    let mut words = field.split_whitespace();
    [
        number(words.next()),
        number(words.next()),
        number(words.next()),
        number(words.next()),
        number(words.next()),
    ]
}

fn number(word: Option<&str>) -> u64 {
    match word {
        Some(word) => word.parse().unwrap_or(0),
        None => 0,
    }
}
