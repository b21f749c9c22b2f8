// The settings that words may choose, and what a word is by itself.
ghost use Rattle.std.specs.Prelude.{◌≡◌, not, Some, IfSome};
ghost use Rattle.go_run.specs.Words.{has_dash, name_of};
ghost use Rattle.go_run.specs.Found.{IsWord};

/// What the words may choose.
#[derive(Clone, Copy, Debug, PartialEq, Eq)]
pub enum Setting {
    /// How many vertices the store has.
    Vertices,
    /// How many slots its ring has.
    Ring,
    /// How many shards its vertices are divided among.
    Shards,
    /// The name of the log file.
    Log,
    /// How many entries are generated.
    Edges,
    /// What they are generated from.
    Seed,
}

/// What a word is by itself.
#[derive(Clone, Copy)]
pub enum Word<'a> {
    /// The name of a file.
    File,
    /// A setting, whose value is the next word.
    Name(Setting),
    /// A setting and its value.
    Choice(Setting, &'a str),
    /// No word of the program.
    Unknown,
}

/// What a word is.
pub fn word_of(word: &str) -> Word<'_>
    ensures { IsWord word.now result }
{
    if !has_dash(word.as_bytes()) {
        return Word::File;
    }
    match word.split_once('=') {
        Some((name, value)) => match setting_named(name) {
            Some(setting) => Word::Choice(setting, value),
            None => Word::Unknown,
        },
        None => match setting_named(word) {
            Some(setting) => Word::Name(setting),
            None => Word::Unknown,
        },
    }
}

/// Whether a word begins with a dash.
pub fn has_dash(word: &[u8]) -> bool
    ensures { result ≡ has_dash word.now }
{
    word.first() == Some(&b'-')
}

// The setting that a word names.
fn setting_named(word: &str) -> Option<Setting>
    ensures named { IfSome result (λ setting. word.now ≡ name_of setting) }
    ensures alone { (setting : Setting) → word.now ≡ name_of setting → result ≡ Some setting }
{
    match word {
        "--vertices" => Some(Setting::Vertices),
        "--ring" => Some(Setting::Ring),
        "--shards" => Some(Setting::Shards),
        "--log" => Some(Setting::Log),
        "--edges" => Some(Setting::Edges),
        "--seed" => Some(Setting::Seed),
        _ => None,
    }
}
