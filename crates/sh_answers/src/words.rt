//! The words of a line.

/// The first word of a text, and the text behind the blanks after it; both empty where there is no word.
pub fn split_word(text: &str) -> (&str, &str) {
    let text = text.trim_start();
    match text.split_once(' ') {
        None => (text, ""),
        Some((word, rest)) => (word, rest.trim_start()),
    }
}
