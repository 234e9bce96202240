// The last line of a text.
ghost use Rattle.std.specs.Prelude.{◌≡◌};
ghost use Rattle.step_run.specs.Lines.{EndsLine, IsLastLine, last_line};

/// The last line of a text, with its line feed.
pub fn last_line(text: &[u8]) -> &[u8]
    requires { EndsLine text.now }
    ensures fact { IsLastLine text.now result.now }
    ensures value { result.now ≡ last_line text.now }
{
    let mut from = text.len() - 1;
    while from > 0 && text[from - 1] != b'\n' {
        from -= 1;
    }
    &text[from..]
}
