// The next token of a trace.

ghost use Rattle.std.specs.Prelude.{◌≡◌, ◌≢◌, ◌<◌, ◌≤◌, true, false, length, drop, slice_index};
ghost use Rattle.run_trace_io.specs.Tokens.{is_blank, is_trace_byte, tokens};
ghost use Rattle.run_trace_io.specs.Scans.{Begins, IsNameAt};

// What stands next in a trace.
#[derive(Clone, Copy)]
pub enum Found {
    End,
    // A `;`, by the place after it.
    Semicolon(usize),
    // A byte that has no place in a trace, by its place.
    Bad(usize),
    // A name, by its place and the place after it.
    Name(usize, usize),
}

// The next token from a place on.
pub fn next_token(text: &[u8], from: usize) -> Found
    requires { from ≤ length text.now }
    ensures { Begins text.now from (tokens false from (drop from text.now)) result }
{
    let mut in_comment = false;
    for at in from..text.len() {
        let byte = text[at];
        if in_comment {
            in_comment = byte != b'\n';
        } else if byte == b'%' {
            in_comment = true;
        } else if !is_blank(byte) {
            return token_at(text, at);
        }
    }
    Found::End
}

// The token at a place where one begins.
fn token_at(text: &[u8], at: usize) -> Found
    requires within { at < length text.now }
    requires no_blank { is_blank (slice_index text.now at) ≡ false }
    requires no_comment { slice_index text.now at ≢ 37 }
    ensures { Begins text.now at (tokens false at (drop at text.now)) result }
{
    let byte = text[at];
    if byte == b';' {
        Found::Semicolon(at + 1)
    } else if is_trace_byte(byte) {
        Found::Name(at, name_end(text, at))
    } else {
        Found::Bad(at)
    }
}

// The place after the name that begins at a place.
fn name_end(text: &[u8], start: usize) -> usize
    requires within { start < length text.now }
    requires begins { is_trace_byte (slice_index text.now start) ≡ true }
    ensures { IsNameAt text.now start result }
{
    for end in start + 1..text.len() {
        if !is_trace_byte(text[end]) {
            return end;
        }
    }
    text.len()
}

fn is_blank(byte: u8) -> bool
    ensures { result ≡ is_blank byte }
{
    matches!(byte, b' ' | b'\t' | b'\n' | 12 | b'\r')
}

fn is_trace_byte(byte: u8) -> bool
    ensures { result ≡ is_trace_byte byte }
{
    (33..=126).contains(&byte) && byte != b';' && byte != b'%'
}
