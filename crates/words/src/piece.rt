// A text is cut at one byte: lines at byte 10, words at byte 32.
ghost use Rattle.std.specs.Prelude.{◌≡◌, ◌+◌, length, take, drop};
ghost use Rattle.std.specs.Iterator.{YieldsFirstRef, item_count};
ghost use Rattle.words.specs.Pieces.{lines_of, line_end, text_left, lines_left, words_of, word_of};

// How many words a line has: one more than it has spaces.
pub fn word_count(line: &[u8]) -> usize
    ensures { result ≡ length (words_of line.now) }
{
    line.split(|b| *b == b' ').count()
}

// The k-th word of a line, from 0; an empty one past the last.
pub fn word(line: &[u8], k: usize) -> &[u8]
    ensures { result.now ≡ word_of line.now k }
{
    line.split(|b| *b == b' ').nth(k).unwrap_or(&[])
}

// The first line of a text without its byte 10, and what stands behind it.
pub fn split_line(text: &[u8]) -> (&[u8], &[u8])
    ensures line { result.0.now ≡ take (line_end text.now) text.now }
    ensures rest { result.1.now ≡ drop (line_end text.now + 1) text.now }
{
    let end = text.iter().position(|b| *b == b'\n').unwrap_or(text.len());
    (&text[..end], text.get(end + 1..).unwrap_or(&[]))
}

// The lines of a text without their bytes 10; bytes behind the last byte 10 are one more. An iterator of its own,
// since the library's `split` gives an empty piece behind the last byte 10.
#[derive(Drop)]
pub struct Lines<'t> {
    rest: &'t [u8],
}

impl<'t> Lines<'t> {
    pub fn new(text: &'t [u8]) -> Self
        ensures { lines_left result ≡ lines_of text.now }
    {
        Lines { rest: text }
    }
}

impl<'t> Iterator for Lines<'t> {
    type Item = &'t [u8];

    ghost next_gives = { YieldsFirstRef lines_left };

    ghost remaining = { item_count text_left };

    fn next(&mut self) -> Option<&'t [u8]> {
        if self.rest.is_empty() {
            return None;
        }
        let (line, rest) = split_line(self.rest);
        self.rest = rest;
        Some(line)
    }
}
