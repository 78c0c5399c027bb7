//! The description and the script of a source.

ghost use Rattle.std.specs.Prelude.{◌≡◌, ◌<◌, ◌≤◌, length, find, IfSome};
ghost use Rattle.std.specs.List.{range_with_len};
ghost use Rattle.misp_script.specs.Source.{ends_line, is_mark, begins_line, begins_mark, mark_at, description_part, script_part};

fn ends_line(rest: &[u8]) -> bool
    ensures { result ≡ ends_line rest.now }
{
    match rest {
        [] => true,
        [byte, ..] => *byte == b'\n',
    }
}

fn is_mark(text: &[u8]) -> bool
    ensures { result ≡ is_mark text.now }
{
    text.starts_with(b"---") && ends_line(&text[3..])
}

fn begins_mark(source: &[u8], at: usize) -> bool
    requires { at < length source.now }
    ensures { result ≡ begins_mark source.now at }
{
    (at == 0 || source[at - 1] == b'\n') && is_mark(&source[at..])
}

fn mark_at(source: &[u8]) -> Option<usize>
    ensures place { result ≡ mark_at source.now }
    ensures inside { IfSome result (λ at. at < length source.now) }
{
    for at in 0..source.len() {
        if begins_mark(source, at) {
            return Some(at);
        }
    }
    None
}

/// The text before the first line that is exactly `---`, and the script after that line. Without
/// such a line all is description, and the script is empty.
pub fn split_source(source: &[u8]) -> (&[u8], &[u8])
    ensures description { result.0.now ≡ description_part source.now }
    ensures script { result.1.now ≡ script_part source.now }
{
    match mark_at(source) {
        Some(at) => (&source[..at], &source[source.len().min(at + 4)..]),
        None => (source, &[]),
    }
}
