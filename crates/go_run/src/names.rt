// The names of the scripts that words name.
ghost use Rattle.std.specs.Prelude.{◌≡◌, ◌++◌, ◌∷◌, [], ◌<◌, nat_lt, if◌then◌else◌, length};
ghost use Rattle.std.specs.Prelude.{map, slice_set, Some, option_copied, option_to_list, IfOk, IsTrue, ◌↔◌};
ghost use Rattle.std.specs.List.{flat_map};
ghost use Rattle.go_run.specs.declared.limits.TheConstants.{SCRIPTS};

use crate::limits::SCRIPTS;
use go_text::Text;
use std::alloc::{AllocError, Global};
use std::marker::Model;

/// Names of scripts in their order, as many as may be run at once, which contracts see as a list of texts.
#[derive(Drop)]
pub struct Names<'a> {
    names: [Option<&'a Text>; SCRIPTS],
    count: usize,
}

impl<'a> Model for Names<'a> {
    ghost use Rattle.std.specs.Prelude.{ℕ, List};
    ghost use Rattle.go_run.specs.Names.{names_in, AreNames};

    ghost Value = { List (List ℕ) };

    ghost view = { λ names. names_in names.names names.count };

    ghost invariant = { λ names. AreNames names.names names.count };
}

impl<'a> Names<'a> {
    /// No name yet.
    pub fn none() -> Names<'a>
        ensures { result ≡ [] }
    {
        Names {
            names: [None; SCRIPTS],
            count: 0,
        }
    }

    /// Whether there is none.
    pub fn is_empty(&self) -> bool
        ensures { IsTrue result ↔ (self.now ≡ []) }
    {
        self.count == 0
    }

    /// A copy of the names.
    pub fn to_texts(&self, alloc: Global) -> Result<Vec<Text>, AllocError>
        ensures { IfOk result (λ texts. texts.items ≡ self.now) }
    {
        let texts = copy_names(alloc, &self.names[..self.count])?;
        Ok(texts)
    }

    /// One name more; answers whether there was room for it.
    pub fn push(&mut self, name: &'a Text) -> bool
        ensures room { result ≡ nat_lt (length self.old) SCRIPTS }
        ensures pushed { self.new ≡ (if result then self.old ++ name.now ∷ [] else self.old) }
    {
        let count = self.count;
        if count == SCRIPTS {
            return false;
        }
        put_at(&mut self.names, count, name);
        self.count = count + 1;
        true
    }
}

// Copies the names at places.
fn copy_names(alloc: Global, places: &[Option<&Text>]) -> Result<Vec<Text>, AllocError>
    ensures { IfOk result (λ texts. texts.items ≡ flat_map option_to_list (map option_copied places.now)) }
{
    let mut texts = Vec::new(alloc);
    for place in places {
        if let Some(name) = place {
            texts.push(Text::of(alloc, name.as_text())?)?;
        }
    }
    Ok(texts)
}

// Puts a name at a place.
fn put_at<'a>(places: &mut [Option<&'a Text>], place: usize, name: &'a Text)
    requires { place < length places.old }
    ensures { map option_copied places.new ≡ slice_set (map option_copied places.old) place (Some name.now) }
{
    places[place] = Some(name);
}
