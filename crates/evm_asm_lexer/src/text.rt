//! Characters, the words of a line, and what stands between its commas.

ghost use Rattle.std.specs.Prelude.{◌≡◌, ◌<◌, ◌≤◌, ◌==◌, not, length, IfSome};
ghost use Rattle.std.specs.List.{position};
ghost use Rattle.evm_asm_lexer.specs.Text.{is_digit, is_name_start, is_word_byte, is_white, is_mark, before, after, has_byte, place_by, skip_blanks, first_word, behind_word};

/// Whether a byte is `0` to `9`.
pub fn is_digit(b: u8) -> bool
    ensures { result ≡ is_digit b }
{
    48 <= b && b <= 57
}

/// Whether a name may begin with this byte: a letter, `_`, `.` or `$`.
pub fn is_name_start(b: u8) -> bool
    ensures { result ≡ is_name_start b }
{
    (97 <= b && b <= 122) || (65 <= b && b <= 90) || b == b'_' || b == b'.' || b == b'$'
}

/// Whether a name or a number may go on with this byte.
pub fn is_word_byte(b: u8) -> bool
    ensures { result ≡ is_word_byte b }
{
    is_name_start(b) || is_digit(b)
}

/// Whether a byte is a blank, a tab or a carriage return.
pub fn is_white(b: u8) -> bool
    ensures { result ≡ is_white b }
{
    b == b' ' || b == b'\t' || b == b'\r'
}

/// Whether a byte is `,`, `(`, `)` or `:`.
pub fn is_mark(b: u8) -> bool
    ensures { result ≡ is_mark b }
{
    b == b',' || b == b'(' || b == b')' || b == b':'
}

fn position_of(c: u8, text: &[u8]) -> Option<usize>
    ensures value { result ≡ position (λ b. b == c) text.now }
    ensures within { IfSome result (λ i. i < length text.now) }
{
    text.iter().position(|b| *b == c)
}

fn text_position(text: &[u8]) -> Option<usize>
    ensures value { result ≡ position (λ b. not (is_white b)) text.now }
    ensures within { IfSome result (λ i. i < length text.now) }
{
    text.iter().position(|b| !is_white(*b))
}

fn end_position(text: &[u8]) -> Option<usize>
    ensures value { result ≡ position (λ b. not (is_word_byte b)) text.now }
    ensures within { IfSome result (λ i. i < length text.now) }
{
    text.iter().position(|b| !is_word_byte(*b))
}

fn place_of(c: u8, text: &[u8]) -> usize
    ensures value { result ≡ place_by (λ b. b == c) text.now }
    ensures within { result ≤ length text.now }
{
    position_of(c, text).unwrap_or(text.len())
}

fn text_start(text: &[u8]) -> usize
    ensures value { result ≡ place_by (λ b. not (is_white b)) text.now }
    ensures within { result ≤ length text.now }
{
    text_position(text).unwrap_or(text.len())
}

fn word_len(text: &[u8]) -> usize
    ensures value { result ≡ place_by (λ b. not (is_word_byte b)) text.now }
    ensures within { result ≤ length text.now }
{
    end_position(text).unwrap_or(text.len())
}

/// The text before the first byte `c`, which is the whole text where there is none.
#[tactic(auto, unfolding(crate::specs::Text::before))]
pub fn before(c: u8, text: &[u8]) -> &[u8]
    ensures { result.now ≡ before c text.now }
{
    let place = place_of(c, text);
    &text[..place]
}

/// The text behind the first byte `c`; nothing where there is none.
#[tactic(auto, unfolding(crate::specs::Text::after))]
pub fn after(c: u8, text: &[u8]) -> &[u8]
    ensures { result.now ≡ after c text.now }
{
    let place = place_of(c, text);
    match &text[place..] {
        [] => &[],
        [_, rest @ ..] => rest,
    }
}

/// The text before the first byte `c` and the text behind it: the whole text and nothing where there is none.
#[tactic(auto, unfolding(crate::specs::Text::before, crate::specs::Text::after))]
pub fn cut(c: u8, text: &[u8]) -> (&[u8], &[u8])
    ensures before { result.0.now ≡ before c text.now }
    ensures after { result.1.now ≡ after c text.now }
{
    let place = place_of(c, text);
    match &text[place..] {
        [] => (&text[..place], &[]),
        [_, rest @ ..] => (&text[..place], rest),
    }
}

/// Whether the byte `c` is in the text.
pub fn has_byte(c: u8, text: &[u8]) -> bool
    ensures { result ≡ has_byte c text.now }
{
    position_of(c, text).is_some()
}

/// The text from its first byte on that isn't blank.
#[tactic(auto, unfolding(crate::specs::Text::skip_blanks))]
pub fn skip_blanks(text: &[u8]) -> &[u8]
    ensures { result.now ≡ skip_blanks text.now }
{
    let place = text_start(text);
    &text[place..]
}

/// The longest word at the front.
#[tactic(auto, unfolding(crate::specs::Text::first_word))]
pub fn first_word(text: &[u8]) -> &[u8]
    ensures { result.now ≡ first_word text.now }
{
    let place = word_len(text);
    &text[..place]
}

/// What follows the longest word at the front.
#[tactic(auto, unfolding(crate::specs::Text::behind_word))]
pub fn behind_word(text: &[u8]) -> &[u8]
    ensures { result.now ≡ behind_word text.now }
{
    let place = word_len(text);
    &text[place..]
}

/// The longest word at the front, and what follows it.
#[tactic(auto, unfolding(crate::specs::Text::first_word, crate::specs::Text::behind_word))]
pub fn cut_word(text: &[u8]) -> (&[u8], &[u8])
    ensures word { result.0.now ≡ first_word text.now }
    ensures behind { result.1.now ≡ behind_word text.now }
{
    let place = word_len(text);
    (&text[..place], &text[place..])
}
