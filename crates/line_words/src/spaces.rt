ghost use Rattle.line_words.specs.Line.{SkipsSpaces};

/// What stands between words.
const SPACE: u8 = b' ';

/// The line without the spaces at its front.
pub(crate) fn without_spaces(line: &[u8]) -> &[u8]
    ensures { SkipsSpaces line.now result.now }
{
    let mut rest = line;
    while let [first, behind @ ..] = rest {
        if *first != SPACE {
            break;
        }
        rest = behind;
    }
    rest
}
