ghost use Rattle.std.specs.Prelude.{◌≡◌};
ghost use Rattle.commands.specs.Names.{name_of};

/// The names of commands, each the first field of its lines.
// Not left out by matching the bytes where the fields are read: the definitions go by these names, as the lines do.
#[derive(Clone, Copy)]
pub(crate) enum Name {
    Open,
    Claim,
    Close,
    Show,
    Enter,
    Abandon,
    Ask,
    Weigh,
}

/// The name that a field is.
pub(crate) fn read_name(field: &[u8]) -> Option<Name>
    ensures { result ≡ name_of field.now }
{
    match field {
        b"open" => Some(Name::Open),
        b"claim" => Some(Name::Claim),
        b"close" => Some(Name::Close),
        b"show" => Some(Name::Show),
        b"enter" => Some(Name::Enter),
        b"abandon" => Some(Name::Abandon),
        b"ask" => Some(Name::Ask),
        b"weigh" => Some(Name::Weigh),
        _ => None,
    }
}
