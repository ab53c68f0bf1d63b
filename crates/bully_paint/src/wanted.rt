//! Who wants colours.
ghost use Rattle.std.specs.Prelude.{◌≡◌, option_map, codes};
ghost use Rattle.bully_paint.specs.Wanted.{is_able, is_unset, wants_colours};

/// Whether a terminal is to have colours, by the values of `NO_COLOR` and `TERM`, where they are set: not if the first
/// has a value that isn't empty, nor on a terminal without a name or one named `dumb`. The rule: docs/FORMATS.md.
pub fn wants_colours(no_color: Option<&str>, term: Option<&str>) -> bool
    ensures { result
        ≡ wants_colours (option_map (λ text. text.now) no_color.entry) (option_map (λ text. text.now) term.entry) }
{
    is_empty(no_color) && is_able(term)
}

// Whether a terminal says how it is called, and not that it takes bare text alone.
fn is_able(term: Option<&str>) -> bool
    ensures { result ≡ is_able (option_map (λ text. text.now) term.entry) }
{
    match term {
        Some(name) => !name.is_empty() && name != "dumb",
        None => false,
    }
}

// Whether there is no value, or an empty one.
fn is_empty(value: Option<&str>) -> bool
    ensures { result ≡ is_unset (option_map (λ text. text.now) value.entry) }
{
    match value {
        Some(text) => text.is_empty(),
        None => true,
    }
}
