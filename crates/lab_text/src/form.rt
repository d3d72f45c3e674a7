//! The forms of lines.
ghost use Rattle.std.specs.Prelude.{◌≡◌};
ghost use Rattle.lab_text.specs.Line.{form_of};

/// What a line is about. A restart and a batch, which have any number of fields, are none of these.
#[derive(Clone, Copy)]
pub enum Form {
    Fill,
    Old,
    Load,
    Move,
    Frame,
    Up,
    Down,
    Tick,
    Reload,
    StrayUp,
    StrayDown,
}

/// The form of the lines whose first field is this word.
pub(crate) fn form_named(word: &[u8]) -> Option<Form>
    ensures { result ≡ form_of word.now }
{
    match word {
        b"fill" => Some(Form::Fill),
        b"old" => Some(Form::Old),
        b"load" => Some(Form::Load),
        b"move" => Some(Form::Move),
        b"frame" => Some(Form::Frame),
        b"up" => Some(Form::Up),
        b"down" => Some(Form::Down),
        b"tick" => Some(Form::Tick),
        b"reload" => Some(Form::Reload),
        b"strayup" => Some(Form::StrayUp),
        b"straydown" => Some(Form::StrayDown),
        _ => None,
    }
}
