//! The pages of the station.

ghost use Rattle.std.specs.Prelude.{◌≡◌};
ghost use Rattle.http_exchange.specs.Routes.{verb_of, verb_name};

/// What can be submitted of a unit.
#[derive(Clone, Copy, Debug, PartialEq, Eq)]
pub enum Submission {
    Tests,
    Rework,
    Release,
    Scrap,
}

/// What a path names.
#[derive(Clone, Copy, Debug, PartialEq, Eq)]
pub enum Page {
    /// Something is submitted there.
    Submit(Submission),
    /// The report of a unit.
    Unit,
    /// The report of the lot.
    Report,
}

/// A method that some page takes.
#[derive(Clone, Copy, Debug, PartialEq, Eq)]
pub enum Verb {
    Get,
    Post,
}

impl Page {
    /// The one method that the page takes.
    pub fn verb(self) -> Verb
        ensures { result ≡ verb_of self }
    {
        match self {
            Page::Submit(_) => Verb::Post,
            Page::Unit | Page::Report => Verb::Get,
        }
    }
}

impl Verb {
    /// Its name in a request.
    pub fn name(self) -> &'static str
        ensures { result.now ≡ verb_name self }
    {
        match self {
            Verb::Get => "GET",
            Verb::Post => "POST",
        }
    }
}
