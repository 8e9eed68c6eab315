// The names of a command's texts, for the lines on standard error.
ghost use Rattle.std.specs.Prelude.{◌≡◌, ◌∷◌, [], map};
ghost use Rattle.refusal_lines.specs.Refusals.{text_name};
ghost use Rattle.refusal_lines.specs.NamesView.{text_names_view};

/// The names of a command's texts, for the lines on standard error.
#[derive(Clone, Copy)]
pub struct Names<'n, 'a> {
    pub log: &'a str,
    pub chain: &'a str,
    pub nets: &'a str,
    pub bsdl: TextNames<'n, 'a>,
}

/// The names of BSDL texts.
#[derive(Clone, Copy)]
pub enum TextNames<'n, 'a> {
    One(&'a str),
    Several(&'n [&'a str]),
}

// Returns the name of BSDL text `text`, counted from 0, or an empty name if there is no such text.
pub fn text_name<'n, 'a>(names: TextNames<'n, 'a>, text: u32) -> &'a str
    ensures { result.now ≡ text_name (text_names_view names.entry) text }
{
    match names {
        TextNames::One(name) => one_name(name, text),
        TextNames::Several(names) => name_at(names, text),
    }
}

fn one_name<'a>(name: &'a str, text: u32) -> &'a str
    ensures { result.now ≡ text_name (name.entry.now ∷ []) text }
{
    if text == 0 { name } else { "" }
}

fn name_at<'a>(names: &[&'a str], text: u32) -> &'a str
    ensures { result.now ≡ text_name (map (λ name. name.now) names.now) text }
{
    match names.get(text as usize) {
        Some(name) => *name,
        None => "",
    }
}
