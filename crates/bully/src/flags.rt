ghost use Rattle.std.specs.Prelude.{◌≡◌};
ghost use Rattle.bully_cli.specs.Words.{text_of};
ghost use Rattle.bully.specs.Answer.{is_given};

/// Whether the flag was given.
pub fn is_given(flag: Option<&str>) -> bool
    ensures { result ≡ is_given (text_of flag.entry) }
{
    match flag {
        Some(flag) => flag == "true",
        None => false,
    }
}
