//! The lines of a script.

ghost use Rattle.std.specs.Prelude.{◌≡◌, ◌<◌, ◌∷◌, length, position};
ghost use Rattle.misp_script.specs.Lines.{lines_of, is_line_feed};

fn line_end(text: &[u8]) -> Option<usize>
    ensures { result ≡ position is_line_feed text.now }
{
    text.iter().position(|byte| *byte == b'\n')
}

/// The first line, without its LF, and what follows it.
#[tactic(auto, using(crate::proofs::Cutting::lines_at, crate::proofs::Cutting::last_line))]
pub fn split_line(script: &[u8]) -> (&[u8], &[u8])
    requires { 0 < length script.now }
    ensures lines { lines_of script.now ≡ result.0.now ∷ lines_of result.1.now }
    ensures shorter { length result.1.now < length script.now }
{
    match line_end(script) {
        Some(end) => (&script[..end], &script[end + 1..]),
        None => (script, &[]),
    }
}
