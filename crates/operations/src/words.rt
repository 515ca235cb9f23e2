// Sorts of operation, layers and refusals as text.
ghost use Rattle.std.specs.Prelude.{◌≡◌, Some};
ghost use Rattle.operations.specs.Words.{layer_words, refusal_words, sort_words};

use crate::refusal::{Layer, Refusal};
use crate::row::Sort;
use std::fmt;

impl Sort {
    // The sort's name in a report.
    pub fn name(&self) -> &'static str
        ensures { result.now ≡ sort_words self.now }
    {
        match self {
            Sort::Read => "read",
            Sort::Write => "write",
        }
    }
}

impl fmt::Display for Sort {
    ghost output = { λ sort. Some (sort_words sort) };

    fn fmt<W: fmt::Write>(&self, f: &mut fmt::Formatter<W>) -> fmt::Result {
        f.write_str(self.name())
    }
}

impl Layer {
    // The layer's name in a report.
    pub fn name(&self) -> &'static str
        ensures { result.now ≡ layer_words self.now }
    {
        match self {
            Layer::WordsInTable => "words.table",
            Layer::WordsInList => "words.list",
            Layer::Table => "table",
            Layer::List => "list",
            Layer::Source => "source",
            Layer::Judge => "judge",
            Layer::Survey => "survey",
            Layer::Log => "log",
        }
    }
}

impl fmt::Display for Layer {
    ghost output = { λ layer. Some (layer_words layer) };

    fn fmt<W: fmt::Write>(&self, f: &mut fmt::Formatter<W>) -> fmt::Result {
        f.write_str(self.name())
    }
}

impl fmt::Display for Refusal {
    ghost output = { λ e. Some (refusal_words e) };

    fn fmt<W: fmt::Write>(&self, f: &mut fmt::Formatter<W>) -> fmt::Result {
        let number = self.number;
        let place = self.place;
        let layer = self.layer;
        write!(f, "refused {number} at {place} by {layer}")
    }
}
