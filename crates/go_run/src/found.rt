// What was found in the words so far: a value for each setting that was chosen, and the files.
ghost use Rattle.std.specs.Prelude.{◌≡◌, not, Some, option_copied};
ghost use Rattle.go_run.specs.Words.{has_dash, is_value, chosen, named};
ghost use Rattle.go_run.specs.Found.{nothing_kept, kept_of, kept_in, put, first_of};

use crate::names::Names;
use crate::setting::{Setting, has_dash};
use go_text::Text;

/// What was found in the words so far.
#[derive(Drop)]
pub struct Found<'a> {
    pub vertices: Option<&'a str>,
    pub ring: Option<&'a str>,
    pub shards: Option<&'a str>,
    pub log: Option<&'a str>,
    pub edges: Option<&'a str>,
    pub seed: Option<&'a str>,
    pub files: Names<'a>,
}

impl<'a> Found<'a> {
    /// Nothing yet.
    pub fn nothing() -> Found<'a>
        ensures { kept_of result ≡ nothing_kept }
    {
        Found {
            vertices: None,
            ring: None,
            shards: None,
            log: None,
            edges: None,
            seed: None,
            files: Names::none(),
        }
    }

    /// The same with a file; `None` where there are too many, or its name begins with a dash.
    pub fn with_file(self, file: &'a Text) -> Option<Found<'a>>
        ensures { kept_in result ≡ put (kept_of self.entry) (named file.now) }
    {
        if has_dash(file.bytes()) {
            return None;
        }
        let mut found = self;
        if found.files.push(file) {
            Some(found)
        } else {
            None
        }
    }

    /// The same with a setting's value; `None` where it is the setting's second one, or may be no value.
    pub fn with(self, setting: Setting, value: &'a str) -> Option<Found<'a>>
        ensures { kept_in result ≡ put (kept_of self.entry) (chosen setting value.now) }
    {
        match setting {
            Setting::Vertices => Some(Found {
                vertices: Some(first(self.vertices, value)?),
                ..self
            }),
            Setting::Ring => Some(Found {
                ring: Some(first(self.ring, value)?),
                ..self
            }),
            Setting::Shards => Some(Found {
                shards: Some(first(self.shards, value)?),
                ..self
            }),
            Setting::Log => Some(Found {
                log: Some(first(self.log, value)?),
                ..self
            }),
            Setting::Edges => Some(Found {
                edges: Some(first(self.edges, value)?),
                ..self
            }),
            Setting::Seed => Some(Found {
                seed: Some(first(self.seed, value)?),
                ..self
            }),
        }
    }
}

// A value, where none stood before it, and it isn't empty and doesn't begin with a dash.
fn first<'a>(before: Option<&'a str>, value: &'a str) -> Option<&'a str>
    ensures { option_copied result ≡ first_of (is_value value.now) (option_copied before.entry) value.now }
{
    if before.is_some() || value.is_empty() || has_dash(value.as_bytes()) {
        return None;
    }
    Some(value)
}
