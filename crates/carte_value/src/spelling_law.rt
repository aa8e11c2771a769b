ghost use Rattle.carte_value.specs.Spelling.{IsValue, OneSpelling};

use crate::Value;

/// Bytes begin with the spelling of one value at most, so what is encoded is read again, whatever follows it.
pub fn one_spelling()
    ensures { OneSpelling }
{}

/// Each value there is can be spelled: its number fits i64, and its text is UTF-8 of at most 65,536 bytes.
pub fn every_value(value: &Value)
    ensures { IsValue value.now }
{
    match value {
        Value::Number(number) => {
            let _number = *number;
        }
        Value::Text(text) => {
            let _text = text.text();
        }
        Value::Empty | Value::Bad(_) => {}
    }
}
