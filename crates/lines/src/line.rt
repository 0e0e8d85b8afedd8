// The lines of a text, and the line reader.
ghost use Rattle.std.specs.Prelude.{◌≡◌, ◌+◌, ◌<◌, ◌≤◌, length, drop};
ghost use Rattle.std.specs.Iterator.{YieldsFirstRef, item_count};
ghost use Rattle.lines.specs.Line.{lf_next};
ghost use Rattle.lines.specs.Places.{quiet, Skipped, end_len, LineAt, IsReader, IsNext, lines_left};

// A line's end, without LF or CR LF, and the start of the next one.
#[derive(Clone, Copy, PartialEq, Eq)]
pub struct Line {
    pub end: usize,
    pub next: usize,
}

// A line reader keeps the text that it was lent and its place in it. As an iterator it gives the bytes of each line from its place on.
#[derive(Clone, Copy)]
pub struct LineReader<'a> {
    pub text: &'a [u8],
    pub at: usize,
}

// Whether an LF stands at `i`.
fn lf_at(text: &[u8], i: usize) -> bool
    ensures { result ≡ lf_next (drop i text.now) }
{
    if i < text.len() {
        return text[i] == b'\n';
    }
    false
}

// How many bytes the end of a line has that starts at `i`: 1 for LF, 2 for CR LF, 0 for none.
fn end_at(text: &[u8], i: usize) -> usize
    requires { i < length text.now }
    ensures { result ≡ end_len (drop i text.now) }
{
    if text[i] == b'\n' {
        return 1;
    }
    if text[i] == b'\r' {
        if lf_at(text, i + 1) {
            return 2;
        }
    }
    0
}

// Whether no line ends in these bytes: none of them is below 14. The loop has no way out, so that the compiler takes many at once.
fn quiet(bytes: &[u8]) -> bool
    ensures { result ≡ quiet bytes.now }
{
    let mut good = true;
    for byte in bytes {
        good = good & (14 <= *byte);
    }
    good
}

// A place from `at` on up to which the line goes, found 16 bytes at a time.
fn skip(text: &[u8], at: usize) -> usize
    requires { at < length text.now }
    ensures { Skipped text.now at result }
{
    let mut i = at;
    // The index is kept: the place at which this stops is what is asked.
    while 16 <= text.len() - i && quiet(&text[i..i + 16]) {
        i += 16;
    }
    i
}

// The line that starts at `at`.
fn line_at(text: &[u8], at: usize) -> Line
    requires { at < length text.now }
    ensures { LineAt text.now at result.end result.next }
{
    for i in skip(text, at)..text.len() {
        let e = end_at(text, i);
        if e != 0 {
            return Line {
                end: i,
                next: i + e,
            };
        }
    }
    let end = text.len();
    Line { end, next: end }
}

impl<'a> LineReader<'a> {
    // A line reader at a place of a text: 0 for its first line, a line's `next` for the one after it.
    pub fn new(text: &'a [u8], at: usize) -> LineReader<'a>
        ensures { IsReader text.entry at result }
    {
        LineReader { text, at }
    }

    // The line that it is at, or `None` where the text ends.
    pub fn line(&self) -> Option<Line>
        ensures { IsNext self.now result }
    {
        if self.at < self.text.len() {
            return Some(line_at(self.text, self.at));
        }
        None
    }
}

impl<'a> Iterator for LineReader<'a> {
    type Item = &'a [u8];

    ghost next_gives = { YieldsFirstRef lines_left };

    ghost remaining = { item_count lines_left };

    fn next(&mut self) -> Option<&'a [u8]> {
        let text = self.text;
        let at = self.at;
        let line = self.line()?;
        self.at = line.next;
        Some(&text[at..line.end])
    }
}
