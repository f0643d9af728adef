// A text read line by line.
ghost use Rattle.std.specs.Prelude.{◌≡◌, [], ◌∷◌, length, MatchOption};
ghost use Rattle.std.specs.Option.{option_map};
ghost use Rattle.std.specs.Iterator.{at_most};
ghost use Rattle.lines.specs.Cuts.{seen};
ghost use Rattle.lines.specs.Lines.{without_return, next_line, lines_of, LineOf, line_steps};

use crate::cut::cut;

const FEED: u8 = b'\n';

const RETURN: u8 = b'\r';

// The line without one carriage return at its end.
fn without_return(line: &[u8]) -> &[u8]
    ensures { result.now ≡ without_return line.now }
{
    line.strip_suffix(&[RETURN]).unwrap_or(line)
}

// The first line of a text, without its end, and the text behind it.
pub fn next_line(text: &[u8]) -> Option<(&[u8], &[u8])>
    ensures value { option_map seen result ≡ next_line text.now }
    ensures parts { MatchOption result (text.now ≡ []) (λ q. LineOf text.now q.0.now q.1.now) }
    ensures lines { MatchOption result (lines_of text.now ≡ []) (λ q. lines_of text.now ≡ q.0.now ∷ lines_of q.1.now) }
{
    if text.is_empty() {
        return None;
    }
    let (line, end) = cut(text, FEED);
    let rest = end.strip_prefix(&[FEED]).unwrap_or(end);
    Some((without_return(line), rest))
}

// The lines of a text, in order and without their ends.
#[derive(Clone, Copy)]
pub struct Lines<'a> {
    rest: &'a [u8],
}

pub fn lines_in(text: &[u8]) -> Lines<'_>
    ensures { result.rest.now ≡ text.now }
{
    Lines { rest: text }
}

impl<'a> Iterator for Lines<'a> {
    type Item = &'a [u8];

    ghost next_gives = { line_steps };

    ghost remaining = { λ s. at_most (length s.rest.now) };

    fn next(&mut self) -> Option<&'a [u8]> {
        let (line, rest) = next_line(self.rest)?;
        self.rest = rest;
        Some(line)
    }
}
