// The lines of a file.

ghost use Rattle.std.specs.Prelude.{◌≡◌, ◌<◌, ◌≤◌, ◌∷◌, [], IfSome, MatchOption, length, position};
ghost use Rattle.mj_ast.specs.Routines.{lines_of};
ghost use Rattle.mj_rou.specs.File.{is_newline, without_return};

/// Where the first byte 10 is.
pub fn newline(bytes: &[u8]) -> Option<usize>
    ensures { result ≡ position is_newline bytes.now }
{
    bytes.iter().position(|byte| *byte == b'\n')
}

/// The bytes without one byte 13 at their end.
pub fn stripped(line: &[u8]) -> &[u8]
    ensures { result.now ≡ without_return line.now }
{
    if !line.is_empty() && line[line.len() - 1] == b'\r' {
        &line[..line.len() - 1]
    } else {
        line
    }
}

/// The first line of what is left of a file, without its end, and what follows it. One byte 13 directly before the byte 10
/// belongs to the end.
pub fn first_line(bytes: &[u8]) -> Option<(&[u8], &[u8])>
    ensures lines { MatchOption result (bytes.now ≡ []) (λ x. lines_of bytes.now ≡ x.0.now ∷ lines_of x.1.now) }
    ensures shorter { IfSome result (λ x. length x.1.now < length bytes.now) }
{
    if bytes.is_empty() {
        return None;
    }
    match newline(bytes) {
        None => Some((bytes, &bytes[bytes.len()..])),
        Some(end) => Some((stripped(&bytes[..end]), &bytes[end + 1..])),
    }
}
