//! Assembly to words.

ghost use Rattle.std.specs.Prelude.{◌≡◌};
ghost use Rattle.sap_machine.specs.Assembly.{assembled};

use crate::line::{cut, read_word};
use crate::words::Words;
use sap_machine::fault::{AsmCode, AsmFault};

/// The words of a text, of which missing ones are 0, or the first line that is refused.
pub fn assemble(text: &[u8]) -> Result<Words, AsmFault>
    ensures { result ≡ assembled text.now }
{
    let mut words = [0u16; 16];
    let mut count: usize = 0;
    let mut rest = text;
    while !rest.is_empty() {
        let line = count as u64 + 1;
        if count == 16 {
            return Err(AsmFault {
                line,
                code: AsmCode::B3,
            });
        }
        let (here, behind) = cut(rest, b'\n');
        if here.len() == rest.len() {
            return Err(AsmFault {
                line,
                code: AsmCode::B4,
            });
        }
        match read_word(here) {
            Ok(word) => words[count] = word,
            Err(code) => return Err(AsmFault { line, code }),
        }
        count += 1;
        rest = behind;
    }
    Ok(Words::new(words))
}
