//! Checks that a text begins with a given word.
ghost use Rattle.std.specs.Prelude.{IfErr};
ghost use Rattle.arachne_lang.specs.Reading.{Gives, IsAtByte, word_at};

use super::stop::Stop;

/// Parses `word` at the front of `text`. Returns the text after `word`.
pub fn word<'t>(text: &'t [u8], word: &[u8]) -> Result<&'t [u8], Stop<'t>>
    ensures read { Gives (λ rest. rest.now) result (word_at word.now text.now) }
    ensures at_byte { IfErr result IsAtByte }
{
    let [first, others @ ..] = word else {
        return Ok(text);
    };
    match text {
        [byte, rest @ ..] if *byte == *first => self::word(rest, others),
        _ => Err(Stop::Departs(text)),
    }
}
