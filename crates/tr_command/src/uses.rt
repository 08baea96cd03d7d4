//! The uses of a command's arguments on an ordinary line.

ghost use Rattle.std.specs.Prelude.{◌≡◌, [], ◌∷◌, map, option_map, codes, false};
ghost use Rattle.std.specs.Option.{option_map_or};
ghost use Rattle.std.specs.Str.{bytes_eq};
ghost use Rattle.clap.specs.Words.{first_of, one_of};
ghost use Rattle.clap.specs.Walk.{has_row};
ghost use Rattle.tr_command.specs.Ordinary.{row_of_use};
ghost use Rattle.tr_command.specs.Reading.{has_flag};

/// A use of an argument, with the argument's name.
#[derive(Clone, Copy)]
pub enum Use<'a> {
    /// A place or an option, with the text that it is given.
    Text { name: &'static str, text: &'a str },
    /// A flag that is given.
    Given(&'static str),
    /// A flag that is left out.
    LeftOut(&'static str),
}

impl Default for Use<'_> {
    /// What a list of uses has where there is none yet.
    fn default() -> Self {
        Use::LeftOut("")
    }
}

impl<'a> Use<'a> {
    /// The name of the argument.
    pub fn name(&self) -> &'static str
        ensures { result.now ≡ (row_of_use self.now).id }
    {
        match *self {
            Use::Text { name, .. } | Use::Given(name) | Use::LeftOut(name) => name,
        }
    }

    /// The text of the use. That of a flag is `true` or `false`, as with clap.
    pub fn text(&self) -> &'a str
        ensures { result.now ∷ [] ≡ (row_of_use self.now).values }
    {
        match *self {
            Use::Text { text, .. } => text,
            Use::Given(_) => "true",
            Use::LeftOut(_) => "false",
        }
    }
}

/// Whether two names of one length are the same. It is a call of its own, since most names differ in length.
#[inline(never)]
fn has_same_bytes(own: &str, name: &str) -> bool
    ensures { result ≡ bytes_eq own.now name.now }
{
    own == name
}

/// Whether two names are the same.
fn is_same(own: &str, name: &str) -> bool
    ensures { result ≡ bytes_eq own.now name.now }
{
    own.len() == name.len() && has_same_bytes(own, name)
}

/// Whether the argument of this name is used.
#[inline(always)]
pub fn is_used(uses: &[Use<'_>], name: &str) -> bool
    ensures { result ≡ has_row name.now (map row_of_use uses.now) }
{
    'uses: for used in uses {
        if is_same(used.name(), name) {
            return true;
        }
    }
    false
}

/// The text of the argument of this name, if it is used.
#[inline(always)]
pub fn text_of<'a>(uses: &[Use<'a>], name: &str) -> Option<&'a str>
    ensures { option_map (λ t. t.now) result ≡ first_of name.now (map row_of_use uses.now) }
{
    'uses: for used in uses {
        if used.name() == name {
            return Some(used.text());
        }
    }
    None
}

/// Whether the flag of this name is given.
pub fn is_true(uses: &[Use<'_>], name: &str) -> bool
    ensures { result ≡ has_flag name.now (map row_of_use uses.now) }
{
    match text_of(uses, name) {
        Some(text) => "true" == text,
        None => false,
    }
}
