//! Lines of bytes, each up to its line feed.
ghost use Rattle.std.specs.Prelude.{◌≡◌, ◌≤◌, length};
ghost use Rattle.broken_line.specs.Cut.{front, behind, skip, length_of_front};

// How many bytes stand before the first line feed.
fn front_len(text: &[u8]) -> usize
    ensures is { result ≡ length_of_front text.now }
    ensures within { result ≤ length text.now }
{
    for i in 0..text.len() {
        if text[i] == b'\n' {
            return i;
        }
    }
    text.len()
}

/// The first line, without its line feed.
pub fn first_line(text: &[u8]) -> &[u8]
    ensures { result.now ≡ front text.now }
{
    &text[..front_len(text)]
}

// What follows the first line feed.
fn behind_line(text: &[u8]) -> &[u8]
    ensures { result.now ≡ behind text.now }
{
    let length = front_len(text);
    if length < text.len() {
        &text[length + 1..]
    } else {
        &[]
    }
}

/// What follows so many line feeds.
pub fn behind_lines(text: &[u8], count: usize) -> &[u8]
    ensures { result.now ≡ skip count text.now }
{
    let mut rest = text;
    for _ in 0..count {
        rest = behind_line(rest);
    }
    rest
}
