//! The lines of a text.

ghost use Rattle.std.specs.Prelude.{◌≡◌, ◌++◌, option_map};
ghost use Rattle.std.specs.Str.Lines.{strip_carriage_return};
ghost use Rattle.check_run.specs.Lines.{IsPart, after_part};

use addr4::first_part;

/// The part before the first LF, and what follows that LF.
pub fn first_line(text: &[u8]) -> (&[u8], Option<&[u8]>)
    ensures whole { text.now ≡ result.0.now ++ after_part (option_map (λ r. r.now) result.1) }
    ensures part { IsPart result.0.now }
{
    first_part(text, b'\n')
}

/// The line without the one CR at its end, if there is one.
pub fn without_return(line: &[u8]) -> &[u8]
    ensures { result.now ≡ strip_carriage_return line.now }
{
    match line.len() {
        0 => line,
        len if line[len - 1] == b'\r' => &line[..len - 1],
        _ => line,
    }
}
