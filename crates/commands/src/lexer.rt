// The lexer: it parts the text into lines and a line into tokens, which are parts of the text.
ghost use Rattle.std.specs.Prelude.{◌≡◌};
ghost use Rattle.std.specs.Iterator.{item_count};
ghost use Rattle.std.specs.Option.{option_map};
ghost use Rattle.commands.specs.Text.{front, back, words_of, value_next, number_of};
ghost use Rattle.commands.specs.Tokens.{option_lexeme, words_left, next_token};

/// The most digits that a number has.
const MOST_DIGITS: usize = 10;

/// A part of a line.
#[derive(Clone, Copy)]
pub(crate) enum Token<'a> {
    /// A word that is no number.
    Word(&'a [u8]),
    /// A word of 1 to 10 digits, below 2^32.
    Number(u32),
}

/// Gives a line's tokens from the left.
// No `Split` of the library, whose closure each clause would have to name.
#[derive(Drop)]
pub(crate) struct Lexer<'a> {
    /// What is left of the line, from the start of a word; nothing behind the last word.
    rest: Option<&'a [u8]>,
}

impl<'a> Lexer<'a> {
    /// The lexer of a line.
    pub(crate) fn over(line: &'a [u8]) -> Lexer<'a>
        ensures { words_left result ≡ words_of line.now }
    {
        Lexer { rest: Some(line) }
    }
}

impl<'a> Iterator for Lexer<'a> {
    type Item = Token<'a>;

    ghost next_gives = { λ l t m. (option_lexeme t, words_left m) ≡ next_token (words_left l) };

    ghost remaining = { item_count words_left };

    fn next(&mut self) -> Option<Token<'a>> {
        let (word, rest) = cut(self.rest?, b' ');
        self.rest = rest;
        match number(word) {
            Some(value) => Some(Token::Number(value)),
            None => Some(Token::Word(word)),
        }
    }
}

// What stands before the first such byte, and what stands behind it.
pub(crate) fn cut(text: &[u8], at: u8) -> (&[u8], Option<&[u8]>)
    ensures front { result.0.now ≡ front at text.now }
    ensures back { option_map (λ x. x.now) result.1 ≡ back at text.now }
{
    match text.iter().position(|byte| *byte == at) {
        Some(place) => (&text[..place], Some(&text[place + 1..])),
        None => (text, None),
    }
}

// What a further digit makes of a value, as long as it fits. A sign is no digit.
fn further(value: u32, byte: u8) -> Option<u32>
    ensures { result ≡ value_next value byte }
{
    if !byte.is_ascii_digit() {
        return None;
    }
    value.checked_mul(10)?.checked_add(u32::from(byte - b'0'))
}

// The number that the word is.
fn number(word: &[u8]) -> Option<u32>
    ensures { result ≡ number_of word.now }
{
    if word.is_empty() || word.len() > MOST_DIGITS {
        return None;
    }
    word.iter()
        .try_fold(0u32, |value, byte| further(value, *byte))
}
